// A controller that listens, in the words that a caller lends: a nibble that it takes.

#![tactic(auto)]

ghost use Rattle.std.specs.Prelude.{◌≡◌};
ghost use Rattle.controllerlistening.specs.Listening.{nibble_in, taken_in, taken_buffer};

use controllerwords::{BUFFER_LENGTH, HALF, KIND, LOW, RESPONSE, Words};

// A nibble is taken. A data byte that is whole goes to its place of the lent buffer.
pub fn take(words: &mut Words, nibble: u8, response: &mut [u8])
    ensures { (words.new ≡ taken_in words.old nibble) × (response.new ≡ taken_buffer words.old nibble response.old) }
{
    controllerwords::save_listening(words, 1, 0);
    if controllerwords::is_over(words[RESPONSE]) {
        take_any(words, nibble, response);
        return;
    }
    if words::flag(words[HALF]) {
        take_any(words, nibble, response);
        return;
    }
    let half = words::with_flag(words[HALF], true);
    let low = words::with8(words[LOW], nibble);
    words[HALF] = half;
    words[LOW] = low;
}

// The response with this nibble, by value.
fn take_any(words: &mut Words, nibble: u8, response: &mut [u8])
    ensures { (words.new ≡ nibble_in words.old nibble) × (response.new ≡ taken_buffer words.old nibble response.old) }
{
    let limit = words::number16(words[BUFFER_LENGTH]);
    let stores = controllerwords::submits(words[KIND]);
    let more = controllerwords::load_response(words).with(nibble, limit, stores, response);
    controllerwords::save_response(words, more);
}

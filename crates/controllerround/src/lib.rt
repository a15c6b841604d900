// A round of a controller in the words that a caller lends: only the words that change are written.

#![tactic(auto)]

ghost use Rattle.std.specs.Prelude.{◌≡◌, true, false, cond, [], ◌∷◌};
ghost use Rattle.controller.specs.Controller.{idle_step};
ghost use Rattle.controllerwords.specs.Controller.{loaded_frame, loaded_response, loaded_stage, listening, stage_in, loaded, saved_in};
ghost use Rattle.controllerwords.specs.Layout.{STAGE, FIRST};
ghost use Rattle.frame.specs.Frame.{null_frame, over, rest_step, frame_buffer, lent_at, pulls_of};
ghost use Rattle.words.specs.Words.{at, flag_of, listener_of, sender_of, lines_number};
ghost use Rattle.controllerround.specs.Round.{event_words, round_in, round_event, moved_in, moved_event, listened, listened_buffer, ends_in};

use answer::Response;
use controllerwords::{
    BUFFER_LENGTH, DATA_LENGTH, EAR, FIRST, KIND, NIBBLE, QUIET, RESPONSE, SENDER, STAGE, TIMEOUT,
    Words,
};
use frame::{LentError, Stage};
use line::Lines;
use turn::Event;

// Whether n bytes of data and a response buffer of so many bytes are what a step is to be lent. Only a submitted frame looks at them.
pub fn check(words: &Words, n: usize, room: usize) -> Result<(), LentError>
    ensures { result ≡ lent_at (loaded_stage words.now) n room }
{
    let tag = words[STAGE];
    if tag < 2 || 4 < tag {
        return Ok(());
    }
    frame::lent_with(
        controllerwords::submits(words[KIND]),
        words::number16(words[DATA_LENGTH]),
        words::number16(words[BUFFER_LENGTH]),
        n,
        room,
    )
}

// A round; what the application is told of it goes into three words.
pub fn round(
    words: &mut Words,
    seen: Lines,
    busy: bool,
    data: &[u8],
    response: &mut [u8],
    event: &mut [u32; 3],
)
    ensures { (words.new ≡ round_in words.old seen busy «data».now) × ((response.new ≡ frame_buffer (loaded_stage words.old) seen response.old) × (event.new ≡ round_event words.old seen busy «data».now)) }
{
    *event = [0, 0, 0];
    // One test after the other, the most frequent first: as a `match` a sending or listening step takes 2 instructions more.
    let tag = words[STAGE];
    let listens = tag == 4;
    if listens {
        listening(words, seen, busy, response, event);
        return;
    }
    let free = tag == 0;
    if free {
        if seen.bav {
            // Called at two places, so that LLVM keeps it out of line: 3 to 7 instructions a step.
            service(words);
            return;
        }
        return;
    }
    let sends = tag == 3;
    if sends {
        controllersending::round(words, seen.hsk, data);
        return;
    }
    let waits = tag == 2;
    if waits {
        controllersending::begin(words);
        return;
    }
    let rests = tag == 1;
    if rests {
        rest(words);
        return;
    }
    if seen.bav {
        service(words);
        return;
    }
}

// A round of rest.
fn rest(words: &mut Words)
    requires { at words.old STAGE ≡ 1 }
    ensures { words.new ≡ stage_in words.old (rest_step (flag_of (at words.old FIRST))) }
{
    if words::flag(words[FIRST]) {
        words[FIRST] = words::with_flag(words[FIRST], false);
        return;
    }
    words[STAGE] = 0;
}

// A round of the idle controller that sees BAV low: a service frame begins where the ring is not empty.
fn service(words: &mut Words)
    ensures { words.new ≡ saved_in words.old (idle_step (loaded words.old) true) }
{
    let ring = controllerwords::load_ring(words);
    if ring.len() == 0 {
        return;
    }
    controllerwords::save_stage(words, frame::begin(turn::frame_of(ring.entry(0))));
    controllerwords::save_ring(words, ring.turned());
}

// What it pulls after its last step, in one number.
pub fn pulls(words: &Words) -> u32
    ensures { result ≡ lines_number (pulls_of (loaded_stage words.now)) }
{
    match words[STAGE] {
        3 => sender_pulls(words[SENDER], words[NIBBLE]),
        4 => listener_pulls(words[EAR]),
        _ => 15,
    }
}

fn sender_pulls(tag: u32, word: u32) -> u32
    ensures { result ≡ lines_number (pulls_of (Stage.Sending null_frame 0 (sender_of tag word) false)) }
{
    match tag {
        1 => word % 16 + 48,
        2 => word % 16 + 32,
        _ => 47,
    }
}

fn listener_pulls(tag: u32) -> u32
    ensures { result ≡ lines_number (pulls_of (Stage.Listening null_frame (listener_of tag) Response.TooLarge 0)) }
{
    if tag == 1 { 63 } else { 47 }
}

// A round of listening.
fn listening(words: &mut Words, seen: Lines, busy: bool, response: &mut [u8], event: &mut [u32; 3])
    requires { (at words.old STAGE ≡ 4) × (event.old ≡ 0 ∷ 0 ∷ 0 ∷ []) }
    ensures { (words.new ≡ moved_in words.old (listened words.old seen busy)) × ((response.new ≡ listened_buffer words.old seen response.old) × (event.new ≡ moved_event (listened words.old seen busy))) }
{
    let ear = words[EAR];
    if words::takes(ear, seen.hsk) {
        controllerlistening::take(words, seen.nibble, response);
        return;
    }
    let next = words::heard(ear, seen.hsk, busy);
    if seen.hsk {
        if waits(words, next, 0) {
            over(words, event);
            return;
        }
        return;
    }
    let quiet = words[QUIET] % 65536 + 1;
    if waits(words, next, quiet) {
        over(words, event);
        return;
    }
}

// A round without a nibble, after which HSK was seen high for so many in a row: whether the frame ends.
fn waits(words: &mut Words, ear: u32, quiet: u32) -> bool
    ensures { (result ≡ ends_in words.old ear quiet) × (words.new ≡ cond result words.old (listening words.old ear quiet)) }
{
    // Two branches, so that LLVM tests one after the other: 4 instructions a round.
    let timeout = words::number16(words[TIMEOUT]);
    if controllerwords::is_over(words[RESPONSE]) {
        if frame::ends(words::listener(ear).is_ready(), timeout, quiet) {
            return true;
        }
    } else {
        if frame::ends(false, timeout, quiet) {
            return true;
        }
    }
    controllerwords::save_listening(words, ear, words::number16(quiet));
    false
}

// The frame ends.
fn over(words: &mut Words, event: &mut [u32; 3])
    ensures { (words.new ≡ moved_in words.old (over (loaded_frame words.old) (loaded_response words.old))) × (event.new ≡ moved_event (over (loaded_frame words.old) (loaded_response words.old))) }
{
    let ring = controllerwords::load_ring(words);
    let f = controllerwords::load_frame(words);
    let response = controllerwords::load_response(words);
    let status = response.status();
    *event = event_words(turn::event_of(f, status, response.count()));
    let first = words::with_flag(words[FIRST], true);
    words[STAGE] = 1;
    words[FIRST] = first;
    controllerwords::save_ring(words, turn::ring_after(ring, f, status));
}

fn event_words(e: Event) -> [u32; 3]
    ensures { result ≡ event_words e }
{
    match e {
        Event::Nothing => [0, 0, 0],
        Event::Ended(status, count) => [1, status as u32, count as u32],
        Event::Handed(code) => [2, code as u32, 0],
    }
}

// A round of a controller that sends, in the words that a caller lends: only the words that change are written.

#![tactic(auto)]

ghost use Rattle.std.specs.Prelude.{◌≡◌};
ghost use Rattle.controllerwords.specs.Controller.{loaded_frame, stage_in};
ghost use Rattle.controllerwords.specs.Layout.{NEXT};
ghost use Rattle.frame.specs.Frame.{begun, next_nibble};
ghost use Rattle.words.specs.Words.{at};
ghost use Rattle.controllersending.specs.Sending.{stage_after, carried_in, Keeps};

use answer::Response;
use controllerwords::{DATA_LENGTH, NEXT, NIBBLE, SENDER, STAGE, WAIT, Words};

// The frame of a submitted command begins.
pub fn begin(words: &mut Words)
    ensures { words.new ≡ stage_in words.old (begun (loaded_frame words.old)) }
{
    let wait = words::with_flag(words[WAIT], true);
    let sender = words::with_tag(words[SENDER], 3, 0);
    words[STAGE] = 3;
    words[WAIT] = wait;
    words[SENDER] = sender;
    words[NEXT] = 0;
}

// A round of sending: what the stage carries, and the stage where it listens.
pub fn round(words: &mut Words, hsk: bool, data: &[u8])
    ensures { words.new ≡ carried_in words.old (stage_after words.old hsk «data».now) }
{
    if words::flag(words[WAIT]) {
        words[WAIT] = words::with_flag(words[WAIT], false);
        return;
    }
    match words[SENDER] {
        1 => words[SENDER] = 2,
        2 => if !hsk {
            sent(words);
        },
        _ => {
            let f = controllerwords::load_frame(words);
            let n = frame::nibble(f, words[NEXT], data);
            let nibble = words::with8(words[NIBBLE], n);
            words[SENDER] = 1;
            words[NIBBLE] = nibble;
        }
    }
}

// The nibble is sent: on to the next, and after the last it listens.
fn sent(words: &mut Words)
    requires { Keeps words.old }
    ensures { words.new ≡ carried_in words.old (next_nibble (loaded_frame words.old) (at words.old NEXT)) }
{
    let i = words[NEXT];
    let n = words::number16(words[DATA_LENGTH]);
    if i < frame::last_nibble(n) {
        words[SENDER] = 0;
        words[NEXT] = i + 1;
        return;
    }
    words[STAGE] = 4;
    controllerwords::save_listening(words, 0, 0);
    controllerwords::save_response(words, Response::new());
}

// A controller in the words that a caller lends: loaded before a call, saved after it.

#![tactic(auto)]

ghost use Rattle.std.specs.Prelude.{◌≡◌, ◌||◌, ◌+◌, ◌<◌, eqb};
ghost use Rattle.frame.specs.Frame.{is_submitted};
ghost use Rattle.words.specs.Words.{at, number_in};
ghost use Rattle.controllerwords.specs.Layout.{ENTRY};
ghost use Rattle.controllerwords.specs.Controller.{kind_of, kind_tag, kind_in, loaded_frame, frame_in, loaded_response, response_in, loaded_stage, sending, listening, stage_in, entry_of, entry_number, loaded_ring, ring_in, loaded, saved_in, saved};

use answer::{Partial, Response};
use controller::Controller;
use frame::{Frame, Kind, Stage};
use line::Sender;
use ring::{Entry, Ring};

// The words of a controller, by name (specs/Layout.antt).
pub const WORDS: usize = 33;

pub type Words = [u32; WORDS];

// Its time-out, and its stage.
pub const TIMEOUT: usize = 0;

pub const STAGE: usize = 1;

// The frame of a stage that has one: its kind, its command, how many bytes of data go with it.
pub const KIND: usize = 2;

pub const DEVICE: usize = 3;

pub const COMMAND: usize = 4;

pub const LOGICAL_UNIT: usize = 5;

pub const RECORD_NUMBER: usize = 6;

pub const BUFFER_LENGTH: usize = 7;

pub const DATA_LENGTH: usize = 8;

// Resting: whether this is the first of the two rounds.
pub const FIRST: usize = 9;

// Sending: whether a round is still to pass, the sender, its nibble, the nibble that is next.
pub const WAIT: usize = 9;

pub const SENDER: usize = 10;

pub const NIBBLE: usize = 11;

pub const NEXT: usize = 12;

// Listening: the listener, the tag of the response, its data's length, and for how many rounds in a row HSK was seen high.
pub const EAR: usize = 10;

pub const RESPONSE: usize = 13;

pub const LENGTH: usize = 14;

pub const QUIET: usize = 15;

// A response that is being taken: whether a low nibble is there, that nibble, the byte that is next; and the status of one that is complete.
pub const HALF: usize = 9;

pub const LOW: usize = 11;

pub const PLACE: usize = 12;

pub const STATUS: usize = 11;

// The ring: read and written only where a service frame begins, at the end of a frame, and by the application's calls.
pub const ENTRIES: usize = 16;

pub const ENTRY: usize = 17;

// The controller that stands in the words.
pub fn load(words: &Words) -> Controller
    ensures { result ≡ loaded words.now }
{
    Controller {
        timeout: words::number16(words[TIMEOUT]),
        stage: load_stage(words),
        ring: load_ring(words),
    }
}

// The controller's own words written over what stands there.
pub fn save(words: &mut Words, c: Controller)
    ensures { words.new ≡ saved_in words.old c }
{
    words[TIMEOUT] = words::with16(words[TIMEOUT], c.timeout);
    save_stage(words, c.stage);
    save_ring(words, c.ring);
}

// The controller in cleared words.
pub fn save_new(words: &mut Words, c: Controller)
    ensures { words.new ≡ saved c }
{
    *words = [0; WORDS];
    save(words, c);
}

fn load_stage(words: &Words) -> Stage
    ensures { result ≡ loaded_stage words.now }
{
    match words[STAGE] {
        1 => Stage::Resting(words::flag(words[FIRST])),
        2 => Stage::Waiting(load_frame(words)),
        3 => Stage::Sending(
            load_frame(words),
            words[NEXT],
            words::sender(words[SENDER], words[NIBBLE]),
            words::flag(words[WAIT]),
        ),
        4 => Stage::Listening(
            load_frame(words),
            words::listener(words[EAR]),
            load_response(words),
            words::number16(words[QUIET]),
        ),
        _ => Stage::Free,
    }
}

// Its stage.
pub fn save_stage(words: &mut Words, stage: Stage)
    ensures { words.new ≡ stage_in words.old stage }
{
    match stage {
        Stage::Free => words[STAGE] = words::with_tag(words[STAGE], 5, 0),
        Stage::Resting(first) => {
            let tag = words::with_tag(words[STAGE], 5, 1);
            let first = words::with_flag(words[FIRST], first);
            words[STAGE] = tag;
            words[FIRST] = first;
        }
        Stage::Waiting(f) => {
            words[STAGE] = words::with_tag(words[STAGE], 5, 2);
            save_frame(words, f);
        }
        Stage::Sending(f, i, s, wait) => {
            words[STAGE] = words::with_tag(words[STAGE], 5, 3);
            save_frame(words, f);
            save_sending(words, i, s, wait);
        }
        Stage::Listening(f, ear, r, quiet) => {
            let ear = words::with_listener(words[EAR], ear);
            words[STAGE] = words::with_tag(words[STAGE], 5, 4);
            save_frame(words, f);
            save_listening(words, ear, quiet);
            save_response(words, r);
        }
    }
}

fn save_sending(words: &mut Words, i: u32, s: Sender, wait: bool)
    ensures { words.new ≡ sending words.old i s wait }
{
    let wait = words::with_flag(words[WAIT], wait);
    let sender = words::with_sender(words[SENDER], s);
    let nibble = words::with_nibble(words[NIBBLE], s);
    words[WAIT] = wait;
    words[SENDER] = sender;
    words[NIBBLE] = nibble;
    words[NEXT] = i;
}

// The ring.
pub fn load_ring(words: &Words) -> Ring
    ensures { result ≡ loaded_ring words.now }
{
    // By an index: of `array::from_fn` with the words in its closure the proof did not close.
    let mut entries = Ring::new().entries;
    for i in 0..16 {
        entries[i] = slot(words, i);
    }
    Ring {
        entries,
        count: words::number8(words[ENTRIES]),
    }
}

// The ring over what stands there.
pub fn save_ring(words: &mut Words, r: Ring)
    ensures { words.new ≡ ring_in words.old r }
{
    words[ENTRIES] = words::with8(words[ENTRIES], r.count);
    for i in 0..16 {
        let place = ENTRY + i;
        words[place] = with_entry(words[place], r.entries[i]);
    }
}

// Whether the tag of a kind is that of a submitted command.
pub fn submits(tag: u32) -> bool
    ensures { result ≡ is_submitted (kind_of tag) }
{
    !matches!(tag, 1 | 2)
}

// An entry in nine bits: its code, and 256 while it is marked.
pub fn entry_number(e: Entry) -> u32
    ensures { (result ≡ entry_number e) × (result < 512) }
{
    e.code as u32 + 256 * words::bit(e.marked)
}

fn slot(words: &Words, i: usize) -> Entry
    requires { i < 16 }
    ensures { result ≡ entry_of (at words.now (ENTRY + i)) }
{
    let word = words[ENTRY + i];
    Entry {
        code: words::number8(word),
        marked: words::flag(word / 256),
    }
}

fn with_entry(word: u32, e: Entry) -> u32
    ensures { result ≡ number_in 512 word (entry_number e) }
{
    word / 512 * 512 + entry_number(e)
}

fn kind(tag: u32) -> Kind
    ensures { result ≡ kind_of tag }
{
    match tag {
        1 => Kind::Poll,
        2 => Kind::Null,
        _ => Kind::Submitted,
    }
}

fn with_kind(word: u32, k: Kind) -> u32
    ensures { result ≡ kind_in word k }
{
    words::with_tag(word, 3, kind_tag(k))
}

fn kind_tag(k: Kind) -> u32
    ensures { result ≡ kind_tag k }
{
    match k {
        Kind::Submitted => 0,
        Kind::Poll => 1,
        Kind::Null => 2,
    }
}

// The frame that stands in the words.
pub fn load_frame(words: &Words) -> Frame
    ensures { result ≡ loaded_frame words.now }
{
    let command = words::command(
        words[DEVICE],
        words[COMMAND],
        words[LOGICAL_UNIT],
        words[RECORD_NUMBER],
        words[BUFFER_LENGTH],
    );
    Frame {
        kind: kind(words[KIND]),
        command,
        data_length: words::number16(words[DATA_LENGTH]),
    }
}

fn save_frame(words: &mut Words, f: Frame)
    ensures { words.new ≡ frame_in words.old f }
{
    let c = f.command;
    let k = f.kind;
    let kind = with_kind(words[KIND], k);
    let device = words::with8(words[DEVICE], c.device);
    let command = words::with8(words[COMMAND], c.command);
    let logical_unit = words::with8(words[LOGICAL_UNIT], c.logical_unit);
    let record_number = words::with16(words[RECORD_NUMBER], c.record_number);
    let buffer_length = words::with16(words[BUFFER_LENGTH], c.buffer_length);
    let data_length = words::with16(words[DATA_LENGTH], f.data_length);
    words[KIND] = kind;
    words[DEVICE] = device;
    words[COMMAND] = command;
    words[LOGICAL_UNIT] = logical_unit;
    words[RECORD_NUMBER] = record_number;
    words[BUFFER_LENGTH] = buffer_length;
    words[DATA_LENGTH] = data_length;
}

// The response, as far as it was taken.
pub fn load_response(words: &Words) -> Response
    ensures { result ≡ loaded_response words.now }
{
    match words[RESPONSE] {
        1 => Response::Complete(
            words::number8(words[STATUS]),
            words::number16(words[LENGTH]),
        ),
        2 => Response::TooLarge,
        _ => Response::Taking(Partial {
            length: words::number16(words[LENGTH]),
            place: words[PLACE],
            half: words::flag(words[HALF]),
            low: words::number8(words[LOW]),
        }),
    }
}

// Whether no more of the response with this tag is to be taken.
pub fn is_over(tag: u32) -> bool
    ensures { result ≡ (eqb tag 1 || eqb tag 2) }
{
    matches!(tag, 1 | 2)
}

// The word of the listener's tag, and the count of quiet rounds.
pub fn save_listening(words: &mut Words, ear: u32, quiet: u16)
    ensures { words.new ≡ listening words.old ear quiet }
{
    let quiet = words::with16(words[QUIET], quiet);
    words[EAR] = ear;
    words[QUIET] = quiet;
}

// The response over what stands there.
pub fn save_response(words: &mut Words, r: Response)
    ensures { words.new ≡ response_in words.old r }
{
    match r {
        Response::Taking(p) => {
            let tag = words::with_tag(words[RESPONSE], 3, 0);
            let length = words::with16(words[LENGTH], p.length);
            let half = words::with_flag(words[HALF], p.half);
            let low = words::with8(words[LOW], p.low);
            words[RESPONSE] = tag;
            words[LENGTH] = length;
            words[PLACE] = p.place;
            words[HALF] = half;
            words[LOW] = low;
        }
        Response::Complete(status, count) => {
            let tag = words::with_tag(words[RESPONSE], 3, 1);
            let status = words::with8(words[STATUS], status);
            let length = words::with16(words[LENGTH], count);
            words[RESPONSE] = tag;
            words[STATUS] = status;
            words[LENGTH] = length;
        }
        Response::TooLarge => words[RESPONSE] = words::with_tag(words[RESPONSE], 3, 2),
    }
}

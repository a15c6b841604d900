// A unit in the words that a caller lends: loaded before a call, saved after it.

#![tactic(auto)]

ghost use Rattle.std.specs.Prelude.{◌≡◌, ◌≤◌};
ghost use Rattle.words.specs.Words.{number_in};
ghost use Rattle.unitwords.specs.Unit.{opening_of, opening_number, accepted_in, queue_of, sequence_of, sequence_tag, argument_in, loaded_screen, screen_in, loaded_serial, common_in, serial_in, address_of, address_in, reply_of, reply_tag, value_in, reply_in, loaded_header, header_in, loaded_partial, low_in, partial_in, loaded_phase, listening, sending, phase_in, moved_in, loaded, settings_in, saved_in, saved};

use header::Header;
use line::{Listener, Sender};
use phase::{Moved, Partial, Phase, Progress};
use queue::Queue;
use screen::{Screen, Sequence};
use serial::{Mode, Opening, Reply, Serial};
use unit::Unit;

// The words of a unit, by name (specs/Layout.antt).
pub const WORDS: usize = 32;

pub type Words = [u32; WORDS];

// Its settings, its row of rounds with BAV seen high, and its pull of BAV.
pub const OWN: usize = 0;

pub const RETRY: usize = 1;

pub const QUIET: usize = 2;

pub const ASKING: usize = 3;

// Its state besides the lines, which only a whole command, the end of a response and its host's calls touch.
pub const OPENING: usize = 4;

pub const ACCEPTED: usize = 5;

pub const ENABLED: usize = 6;

pub const REQUESTING: usize = 7;

pub const INPUT_HEAD: usize = 8;

pub const INPUT_COUNT: usize = 9;

pub const OUTPUT_HEAD: usize = 10;

pub const OUTPUT_COUNT: usize = 11;

// Its phase.
pub const PHASE: usize = 12;

// Selecting, and receiving until the command is whole: the listener, whether a low nibble is there, that nibble, the byte that is next.
pub const EAR: usize = 13;

pub const HALF: usize = 14;

pub const LOW: usize = 15;

pub const PLACE: usize = 16;

// Receiving until the command is whole: the header as far as it is there.
pub const DEVICE: usize = 17;

pub const COMMAND: usize = 18;

pub const LOGICAL_UNIT: usize = 19;

pub const RECORD_NUMBER: usize = 20;

pub const BUFFER_LENGTH: usize = 21;

pub const DATA_LENGTH: usize = 22;

// Receiving after that, and responding: the reply, and its value.
pub const REPLY: usize = 17;

pub const VALUE: usize = 18;

// Responding: the sender, whether a round is still to pass, the sender's nibble, the nibble that is next.
pub const SENDER: usize = 13;

pub const WAIT: usize = 14;

pub const NIBBLE: usize = 15;

pub const NEXT: usize = 16;

// Sitting out: whether the pull of HSK stands.
pub const LAST: usize = 14;

// Its screen: the cursor, the modes, the protected lines, whether the cursor's address is asked for, the sequence that is being read and its
// argument.
pub const ROW: usize = 23;

pub const COLUMN: usize = 24;

pub const SCROLLS: usize = 25;

pub const WRAPS: usize = 26;

pub const TOP: usize = 27;

pub const BOTTOM: usize = 28;

pub const ASKED: usize = 29;

pub const SEQUENCE: usize = 30;

pub const ARGUMENT: usize = 31;

// The unit that stands in the words.
pub fn load(words: &Words) -> Unit
    ensures { result ≡ loaded words.now }
{
    Unit {
        own: words::number8(words[OWN]),
        retry: words::number16(words[RETRY]),
        quiet: words::number16(words[QUIET]),
        asking: words::flag(words[ASKING]),
        phase: load_phase(words),
        serial: load_serial(words),
    }
}

// The unit's own words written over what stands there.
pub fn save(words: &mut Words, u: Unit)
    ensures { words.new ≡ saved_in words.old u }
{
    save_settings(words, u);
    save_serial(words, u.serial);
    save_phase(words, u.phase);
}

// The unit in cleared words.
pub fn save_new(words: &mut Words, u: Unit)
    ensures { words.new ≡ saved u }
{
    *words = [0; WORDS];
    save(words, u);
}

// A phase, and the state beside it.
pub fn save_moved(words: &mut Words, m: Moved)
    ensures { words.new ≡ moved_in words.old m }
{
    save_serial(words, m.serial);
    save_phase(words, m.phase);
}

// Its state besides the lines.
pub fn load_serial(words: &Words) -> Serial
    ensures { result ≡ loaded_serial words.now }
{
    Serial {
        opening: opening(words[OPENING], words[ACCEPTED]),
        enabled: words::flag(words[ENABLED]),
        requesting: words::flag(words[REQUESTING]),
        input: queue(words[INPUT_HEAD], words[INPUT_COUNT]),
        output: queue(words[OUTPUT_HEAD], words[OUTPUT_COUNT]),
        screen: load_screen(words),
    }
}

// Its screen.
pub fn load_screen(words: &Words) -> Screen
    ensures { result ≡ loaded_screen words.now }
{
    Screen {
        row: words::number8(words[ROW]),
        column: words::number8(words[COLUMN]),
        scrolls: words::flag(words[SCROLLS]),
        wraps: words::flag(words[WRAPS]),
        top: words::flag(words[TOP]),
        bottom: words::flag(words[BOTTOM]),
        asked: words::flag(words[ASKED]),
        sequence: sequence(words[SEQUENCE], words[ARGUMENT]),
    }
}

fn load_phase(words: &Words) -> Phase
    ensures { result ≡ loaded_phase words.now }
{
    match words[PHASE] {
        1 => Phase::Selecting(
            words::listener(words[EAR]),
            words::flag(words[HALF]),
            words::number8(words[LOW]),
        ),
        2 => Phase::Receiving(
            words::listener(words[EAR]),
            Progress::Taking(load_partial(words)),
        ),
        3 => Phase::Receiving(
            words::listener(words[EAR]),
            Progress::Answered(reply(words[REPLY], words[VALUE])),
        ),
        4 => Phase::Responding(
            reply(words[REPLY], words[VALUE]),
            words[NEXT],
            words::sender(words[SENDER], words[NIBBLE]),
            words::flag(words[WAIT]),
        ),
        5 => Phase::SittingOut(words::flag(words[LAST])),
        _ => Phase::Idle,
    }
}

// Its phase.
pub fn save_phase(words: &mut Words, phase: Phase)
    ensures { words.new ≡ phase_in words.old phase }
{
    match phase {
        Phase::Idle => words[PHASE] = words::with_tag(words[PHASE], 6, 0),
        Phase::Selecting(ear, half, low) => {
            save_listening(words, 1, ear);
            save_low(words, half, low);
        }
        Phase::Receiving(ear, progress) => save_progress(words, ear, progress),
        Phase::Responding(reply, i, sender, wait) => {
            save_sending(words, i, sender, wait);
            save_reply(words, reply);
        }
        Phase::SittingOut(last) => {
            let phase = words::with_tag(words[PHASE], 6, 5);
            let last = words::with_flag(words[LAST], last);
            words[PHASE] = phase;
            words[LAST] = last;
        }
    }
}

fn save_progress(words: &mut Words, ear: Listener, progress: Progress)
    ensures { words.new ≡ phase_in words.old (Phase.Receiving ear progress) }
{
    match progress {
        Progress::Taking(p) => {
            save_listening(words, 2, ear);
            save_partial(words, p);
        }
        Progress::Answered(reply) => {
            save_listening(words, 3, ear);
            save_reply(words, reply);
        }
    }
}

fn save_listening(words: &mut Words, tag: u32, ear: Listener)
    ensures { words.new ≡ listening words.old tag ear }
{
    let phase = words::with_tag(words[PHASE], 6, tag);
    let ear = words::with_listener(words[EAR], ear);
    words[PHASE] = phase;
    words[EAR] = ear;
}

fn save_sending(words: &mut Words, i: u32, s: Sender, wait: bool)
    ensures { words.new ≡ sending words.old i s wait }
{
    let phase = words::with_tag(words[PHASE], 6, 4);
    let sender = words::with_sender(words[SENDER], s);
    let wait = words::with_flag(words[WAIT], wait);
    let nibble = words::with_nibble(words[NIBBLE], s);
    words[PHASE] = phase;
    words[SENDER] = sender;
    words[WAIT] = wait;
    words[NIBBLE] = nibble;
    words[NEXT] = i;
}

fn save_settings(words: &mut Words, u: Unit)
    ensures { words.new ≡ settings_in words.old u }
{
    let own = words::with8(words[OWN], u.own);
    let retry = words::with16(words[RETRY], u.retry);
    let quiet = words::with16(words[QUIET], u.quiet);
    let asking = words::with_flag(words[ASKING], u.asking);
    words[OWN] = own;
    words[RETRY] = retry;
    words[QUIET] = quiet;
    words[ASKING] = asking;
}

fn save_serial(words: &mut Words, s: Serial)
    ensures { words.new ≡ serial_in words.old s }
{
    save_common(words, s);
    save_screen(words, s.screen);
}

fn save_common(words: &mut Words, s: Serial)
    ensures { words.new ≡ common_in words.old s }
{
    let input = s.input;
    let output = s.output;
    let o = s.opening;
    let opening = with_opening(words[OPENING], o);
    let accepted = with_accepted(words[ACCEPTED], o);
    let enabled = words::with_flag(words[ENABLED], s.enabled);
    let requesting = words::with_flag(words[REQUESTING], s.requesting);
    let input_head = words::with8(words[INPUT_HEAD], input.head);
    let input_count = words::with16(words[INPUT_COUNT], input.count);
    let output_head = words::with8(words[OUTPUT_HEAD], output.head);
    let output_count = words::with16(words[OUTPUT_COUNT], output.count);
    words[OPENING] = opening;
    words[ACCEPTED] = accepted;
    words[ENABLED] = enabled;
    words[REQUESTING] = requesting;
    words[INPUT_HEAD] = input_head;
    words[INPUT_COUNT] = input_count;
    words[OUTPUT_HEAD] = output_head;
    words[OUTPUT_COUNT] = output_count;
}

fn save_screen(words: &mut Words, s: Screen)
    ensures { words.new ≡ screen_in words.old s }
{
    let q = s.sequence;
    let row = words::with8(words[ROW], s.row);
    let column = words::with8(words[COLUMN], s.column);
    let scrolls = words::with_flag(words[SCROLLS], s.scrolls);
    let wraps = words::with_flag(words[WRAPS], s.wraps);
    let top = words::with_flag(words[TOP], s.top);
    let bottom = words::with_flag(words[BOTTOM], s.bottom);
    let asked = words::with_flag(words[ASKED], s.asked);
    let sequence = words::with_tag(words[SEQUENCE], 5, sequence_tag(q));
    let argument = with_argument(words[ARGUMENT], q);
    words[ROW] = row;
    words[COLUMN] = column;
    words[SCROLLS] = scrolls;
    words[WRAPS] = wraps;
    words[TOP] = top;
    words[BOTTOM] = bottom;
    words[ASKED] = asked;
    words[SEQUENCE] = sequence;
    words[ARGUMENT] = argument;
}

// The sequence of two words.
fn sequence(tag: u32, argument: u32) -> Sequence
    ensures { result ≡ sequence_of tag argument }
{
    match tag {
        1 => Sequence::Escape,
        2 => Sequence::Row,
        3 => Sequence::Column(words::number8(argument)),
        4 => Sequence::Skips(words::number8(argument)),
        _ => Sequence::Plain,
    }
}

fn sequence_tag(q: Sequence) -> u32
    ensures { result ≡ sequence_tag q }
{
    match q {
        Sequence::Plain => 0,
        Sequence::Escape => 1,
        Sequence::Row => 2,
        Sequence::Column(_) => 3,
        Sequence::Skips(_) => 4,
    }
}

fn with_argument(word: u32, q: Sequence) -> u32
    ensures { result ≡ argument_in word q }
{
    match q {
        Sequence::Plain | Sequence::Escape | Sequence::Row => word,
        Sequence::Column(row) => words::with8(word, row),
        Sequence::Skips(n) => words::with8(word, n),
    }
}

fn opening(word: u32, accepted: u32) -> Opening
    ensures { result ≡ opening_of word accepted }
{
    match word % 4 {
        1 => Opening::OpenFor(Mode::Input, words::number8(accepted)),
        2 => Opening::OpenFor(Mode::Output, words::number8(accepted)),
        3 => Opening::OpenFor(Mode::Update, words::number8(accepted)),
        _ => Opening::Closed,
    }
}

// Closed 0, open for input 1, output 2, update 3.
pub fn opening_number(o: Opening) -> u32
    ensures { (result ≡ opening_number o) × (result ≤ 3) }
{
    match o {
        Opening::Closed => 0,
        Opening::OpenFor(Mode::Input, _) => 1,
        Opening::OpenFor(Mode::Output, _) => 2,
        Opening::OpenFor(Mode::Update, _) => 3,
    }
}

fn with_opening(word: u32, o: Opening) -> u32
    ensures { result ≡ number_in 4 word (opening_number o) }
{
    word / 4 * 4 + opening_number(o)
}

fn with_accepted(word: u32, o: Opening) -> u32
    ensures { result ≡ accepted_in word o }
{
    match o {
        Opening::Closed => word,
        Opening::OpenFor(_, accepted) => words::with8(word, accepted),
    }
}

// A queue of two words.
pub fn queue(head: u32, count: u32) -> Queue
    ensures { result ≡ queue_of head count }
{
    Queue {
        head: words::number8(head),
        count: words::number16(count),
    }
}

// The reply of two words.
pub fn reply(tag: u32, word: u32) -> Reply
    ensures { result ≡ reply_of tag word }
{
    match tag {
        1 => Reply::Status(words::number8(word)),
        2 => Reply::Opened(words::number8(word)),
        3 => Reply::Bytes(words::number16(word)),
        4 => Reply::Polled,
        5 => address(word),
        _ => Reply::Silent,
    }
}

fn address(word: u32) -> Reply
    ensures { result ≡ address_of word }
{
    Reply::Address(
        words::number8(word),
        words::number8(word / 256),
        words::number8(word / 65536),
    )
}

fn with_address(word: u32, n: u8, row: u8, column: u8) -> u32
    ensures { result ≡ address_in word n row column }
{
    let number = n as u32 + 256 * row as u32 + 65536 * column as u32;
    word / 16777216 * 16777216 + number
}

fn reply_tag(r: Reply) -> u32
    ensures { result ≡ reply_tag r }
{
    match r {
        Reply::Silent => 0,
        Reply::Status(_) => 1,
        Reply::Opened(_) => 2,
        Reply::Bytes(_) => 3,
        Reply::Polled => 4,
        Reply::Address(_, _, _) => 5,
    }
}

fn with_value(word: u32, r: Reply) -> u32
    ensures { result ≡ value_in word r }
{
    match r {
        Reply::Silent | Reply::Polled => word,
        Reply::Status(status) => words::with8(word, status),
        Reply::Opened(accepted) => words::with8(word, accepted),
        Reply::Bytes(n) => words::with16(word, n),
        Reply::Address(n, row, column) => with_address(word, n, row, column),
    }
}

fn save_reply(words: &mut Words, r: Reply)
    ensures { words.new ≡ reply_in words.old r }
{
    let reply = words::with_tag(words[REPLY], 6, reply_tag(r));
    let value = with_value(words[VALUE], r);
    words[REPLY] = reply;
    words[VALUE] = value;
}

// Whether the low nibble of a byte is there, and that nibble.
pub fn save_low(words: &mut Words, half: bool, low: u8)
    ensures { words.new ≡ low_in words.old half low }
{
    let half = words::with_flag(words[HALF], half);
    let low = words::with8(words[LOW], low);
    words[HALF] = half;
    words[LOW] = low;
}

fn load_partial(words: &Words) -> Partial
    ensures { result ≡ loaded_partial words.now }
{
    let header = load_header(words);
    Partial {
        header,
        place: words[PLACE],
        half: words::flag(words[HALF]),
        low: words::number8(words[LOW]),
    }
}

// The header of a command that is being taken.
pub fn load_header(words: &Words) -> Header
    ensures { result ≡ loaded_header words.now }
{
    let command = words::command(
        words[DEVICE],
        words[COMMAND],
        words[LOGICAL_UNIT],
        words[RECORD_NUMBER],
        words[BUFFER_LENGTH],
    );
    Header {
        command,
        data_length: words::number16(words[DATA_LENGTH]),
    }
}

// A command that is being taken.
pub fn save_partial(words: &mut Words, p: Partial)
    ensures { words.new ≡ partial_in words.old p }
{
    let header = p.header;
    save_low(words, p.half, p.low);
    words[PLACE] = p.place;
    save_header(words, header);
}

fn save_header(words: &mut Words, h: Header)
    ensures { words.new ≡ header_in words.old h }
{
    let c = h.command;
    let device = words::with8(words[DEVICE], c.device);
    let command = words::with8(words[COMMAND], c.command);
    let logical_unit = words::with8(words[LOGICAL_UNIT], c.logical_unit);
    let record_number = words::with16(words[RECORD_NUMBER], c.record_number);
    let buffer_length = words::with16(words[BUFFER_LENGTH], c.buffer_length);
    let data_length = words::with16(words[DATA_LENGTH], h.data_length);
    words[DEVICE] = device;
    words[COMMAND] = command;
    words[LOGICAL_UNIT] = logical_unit;
    words[RECORD_NUMBER] = record_number;
    words[BUFFER_LENGTH] = buffer_length;
    words[DATA_LENGTH] = data_length;
}

// A round of a unit in the words that a caller lends. A phase reads the words that it needs and writes those that change; where a phase is
// left, and at a whole command, the functions of the machine by value are called.

#![tactic(auto)]

ghost use Rattle.std.specs.Prelude.{◌≡◌, true, false, ◌&&◌, not, eqb, set};
ghost use Rattle.unit.specs.Unit.{high_step, pulls_of, pulls_hsk, pulls_nibble};
ghost use Rattle.unitwords.specs.Layout.{ASKING, PHASE, EAR, SENDER, WAIT};
ghost use Rattle.unitwords.specs.Unit.{low_in, loaded_phase, loaded, row_in, saved_in};
ghost use Rattle.words.specs.Words.{at, flag_of};
ghost use Rattle.unitround.specs.Round.{Stepped, Moves, selects, Takes, TakesByte, answers, nibble, sends, responds, leaves};

use line::Lines;
use unitwords::{
    ASKING, DATA_LENGTH, EAR, ENABLED, HALF, INPUT_COUNT, INPUT_HEAD, LAST, LOW, NEXT, NIBBLE, OWN,
    PHASE, PLACE, QUIET, REPLY, REQUESTING, RETRY, SENDER, VALUE, WAIT, Words,
};

// A round: the levels that the unit sees, whether its host is busy, the lent command buffer, and the bytes of its two queues.
pub fn round(
    words: &mut Words,
    seen: Lines,
    busy: bool,
    buffer: &mut [u8],
    input: &[u8; 256],
    output: &mut [u8],
)
    ensures { Stepped words.old seen busy buffer.old input.now output.old words.new buffer.new output.new }
{
    if seen.bav {
        lowered(words, seen.hsk);
        phase(words, seen, busy, buffer, input, output);
        return;
    }
    dropped(words, seen.hsk);
}

// What it pulls after its last round.
pub fn pulls(words: &Words) -> Lines
    ensures { result ≡ pulls_of (loaded words.now) }
{
    Lines {
        bav: words::flag(words[ASKING]),
        hsk: pulls_hsk(words),
        nibble: pulls_nibble(words),
    }
}

fn pulls_hsk(words: &Words) -> bool
    ensures { result ≡ pulls_hsk (loaded_phase words.now) }
{
    match words[PHASE] {
        1..=3 => words::listener(words[EAR]).hsk(),
        4 => words::sender(words[SENDER], words[NIBBLE]).hsk(),
        5 => words::flag(words[LAST]),
        _ => false,
    }
}

fn pulls_nibble(words: &Words) -> u8
    ensures { result ≡ pulls_nibble (loaded_phase words.now) }
{
    match words[PHASE] {
        4 => words::sender(words[SENDER], words[NIBBLE]).nibble(),
        _ => 15,
    }
}

// BAV seen high: only the row, the pull of BAV and the phase change.
fn dropped(words: &mut Words, hsk: bool)
    ensures { words.new ≡ saved_in words.old (high_step (loaded words.old) hsk) }
{
    let enabled = words::flag(words[ENABLED]);
    let requesting = words::flag(words[REQUESTING]);
    let retry = words::number16(words[RETRY]);
    let quiet = unit::quiet_after(words::number16(words[QUIET]), retry);
    let asking = unit::asks(
        words::flag(words[ASKING]),
        enabled,
        requesting,
        retry,
        quiet,
        hsk,
    );
    save_row(words, quiet, asking);
    words[PHASE] = words::with_tag(words[PHASE], 6, 0);
}

// BAV seen low, before the round of the phase.
fn lowered(words: &mut Words, hsk: bool)
    ensures { words.new ≡ row_in words.old 0 (flag_of (at words.old ASKING) && not hsk) }
{
    words[QUIET] = words::with16(words[QUIET], 0);
    if words::flag(words[ASKING]) {
        words[ASKING] = words::with_flag(words[ASKING], unit::still_asks(true, hsk));
    }
}

fn save_row(words: &mut Words, quiet: u16, asking: bool)
    ensures { words.new ≡ row_in words.old quiet asking }
{
    let row = words::with16(words[QUIET], quiet);
    let pull = words::with_flag(words[ASKING], asking);
    words[QUIET] = row;
    words[ASKING] = pull;
}

// The round of the phase that stands in the words.
fn phase(
    words: &mut Words,
    seen: Lines,
    busy: bool,
    buffer: &mut [u8],
    input: &[u8; 256],
    output: &mut [u8],
)
    ensures { Moves words.old seen busy buffer.old input.now output.old words.new buffer.new output.new }
{
    match words[PHASE] {
        1 => selecting(words, seen, busy),
        2 => taking(words, seen, busy, buffer, output),
        3 => answered(words, seen.hsk, busy),
        4 => responding(words, seen.hsk, input),
        5 => words[LAST] = words::with_flag(words[LAST], false),
        _ => leave(words, seen.hsk, 0),
    }
}

// The phase that stands in the words is left: idle at BAV low, selecting with a code, receiving and responding after their last nibble.
// Called at several places, so that LLVM keeps all this out of line: 6 to 8 instructions a step.
fn leave(words: &mut Words, hsk: bool, code: u8)
    ensures { words.new ≡ leaves words.old hsk code }
{
    match words[PHASE] {
        1 => {
            let own = words::number8(words[OWN]);
            unitwords::save_phase(words, phase::select(own, code));
        }
        3 => {
            let reply = unitwords::reply(words[REPLY], words[VALUE]);
            unitwords::save_phase(words, phase::replied(reply));
        }
        4 => {
            let sent = unitwords::reply(words[REPLY], words[VALUE]);
            let serial = unitwords::load_serial(words);
            unitwords::save_moved(words, phase::done(serial, sent));
        }
        _ => unitwords::save_phase(words, phase::idle(hsk)),
    }
}

fn selecting(words: &mut Words, seen: Lines, busy: bool)
    requires { eqb (at words.old PHASE) 1 ≡ true }
    ensures { words.new ≡ selects words.old seen busy }
{
    let ear = words[EAR];
    if words::takes(ear, seen.hsk) {
        if words::flag(words[HALF]) {
            let code = field::byte_of(words::number8(words[LOW]), seen.nibble);
            leave(words, false, code);
            return;
        }
        take_low(words, seen.nibble);
        return;
    }
    words[EAR] = words::heard(ear, seen.hsk, busy);
}

// The low nibble of a byte.
fn take_low(words: &mut Words, nibble: u8)
    ensures { words.new ≡ low_in (set words.old EAR 1) true nibble }
{
    words[EAR] = 1;
    unitwords::save_low(words, true, nibble);
}

// Receiving, until the last nibble is taken.
fn taking(words: &mut Words, seen: Lines, busy: bool, buffer: &mut [u8], output: &mut [u8])
    requires { eqb (at words.old PHASE) 2 ≡ true }
    ensures { Takes words.old seen busy buffer.old output.old words.new buffer.new output.new }
{
    let ear = words[EAR];
    if words::takes(ear, seen.hsk) {
        if words::flag(words[HALF]) {
            let b = field::byte_of(words::number8(words[LOW]), seen.nibble);
            take_byte(words, b, buffer, output);
            return;
        }
        take_low(words, seen.nibble);
        return;
    }
    words[EAR] = words::heard(ear, seen.hsk, busy);
}

// A byte of a command is there. One of its data, not the last, leaves the header and the state as they are. The rest is called at two
// places, so that LLVM keeps it out of line: 10 instructions a step.
fn take_byte(words: &mut Words, b: u8, buffer: &mut [u8], output: &mut [u8])
    requires { eqb (at words.old PHASE) 2 ≡ true }
    ensures { TakesByte words.old b buffer.old output.old words.new buffer.new output.new }
{
    let place = words[PLACE];
    let n = words::number16(words[DATA_LENGTH]);
    if 9 <= place {
        if place < 8 + n as u32 {
            phase::put(n, place, b, buffer);
            words[EAR] = 1;
            unitwords::save_low(words, false, 0);
            words[PLACE] = place + 1;
            return;
        }
        take_any(words, b, buffer, output);
        return;
    }
    take_any(words, b, buffer, output);
}

// Any byte.
fn take_any(words: &mut Words, b: u8, buffer: &mut [u8], output: &mut [u8])
    requires { eqb (at words.old PHASE) 2 ≡ true }
    ensures { TakesByte words.old b buffer.old output.old words.new buffer.new output.new }
{
    let place = words[PLACE];
    let old = unitwords::load_header(words);
    let header = old.with(phase::wide(place), b);
    let n = header.data_length;
    phase::put(n, place, b, buffer);
    if 8 + n as u32 <= place {
        let own = words::number8(words[OWN]);
        let serial = unitwords::load_serial(words);
        unitwords::save_moved(words, phase::answer(own, serial, header, buffer, output));
        return;
    }
    words[EAR] = 1;
    unitwords::save_partial(words, phase::whole_bytes(header, place + 1));
}

// Receiving, after the last nibble.
fn answered(words: &mut Words, hsk: bool, busy: bool)
    requires { eqb (at words.old PHASE) 3 ≡ true }
    ensures { words.new ≡ answers words.old hsk busy }
{
    let ear = words::heard(words[EAR], hsk, busy);
    if words::listener(ear).is_ready() {
        leave(words, hsk, 0);
        return;
    }
    words[EAR] = ear;
}

// Responding: one round.
fn responding(words: &mut Words, hsk: bool, input: &[u8; 256])
    requires { eqb (at words.old PHASE) 4 ≡ true }
    ensures { words.new ≡ responds words.old hsk input.now }
{
    if words::flag(words[WAIT]) {
        words[WAIT] = words::with_flag(words[WAIT], false);
        return;
    }
    match words[SENDER] {
        1 => words[SENDER] = 2,
        2 => {
            if !hsk {
                sent(words);
            }
        }
        _ => {
            let n = nibble(words, input);
            let word = words::with8(words[NIBBLE], n);
            words[SENDER] = 1;
            words[NIBBLE] = word;
        }
    }
}

// The nibble is sent: on to the next, or what waited for the last happens.
fn sent(words: &mut Words)
    requires is_responding { eqb (at words.old PHASE) 4 ≡ true }
    requires waits_no_more { flag_of (at words.old WAIT) ≡ false }
    requires is_kept { eqb (at words.old SENDER) 2 ≡ true }
    ensures { words.new ≡ sends words.old }
{
    let reply = unitwords::reply(words[REPLY], words[VALUE]);
    let q = unitwords::queue(words[INPUT_HEAD], words[INPUT_COUNT]);
    let i = words[NEXT];
    if phase::wide(i) < reply::last(reply, q) {
        words[SENDER] = 0;
        words[NEXT] = i + 1;
        return;
    }
    leave(words, false, 0);
}

// The nibble that is next.
fn nibble(words: &Words, input: &[u8; 256]) -> u8
    ensures { result ≡ nibble words.now input.now }
{
    let q = unitwords::queue(words[INPUT_HEAD], words[INPUT_COUNT]);
    let i = phase::wide(words[NEXT]);
    reply::nibble(unitwords::reply(words[REPLY], words[VALUE]), q, input, i)
}

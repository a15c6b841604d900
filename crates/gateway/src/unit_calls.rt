// A unit in words of its caller's.
ghost use Rattle.std.specs.Prelude.{◌≡◌};
ghost use Rattle.host.specs.Calls.{looks_of};
ghost use Rattle.unit.specs.Unit.{pulls_of};
ghost use Rattle.unitwords.specs.Unit.{loaded};
ghost use Rattle.words.specs.Words.{lines_number};
ghost use Rattle.gateway.specs.Unit.{lines_of, accepted_of, looks_words, is_reading, screen_looks, UnitMade, UnitStepped, UnitFed, UnitTaken, UnitRaised};

use line::Lines;
use screen::Sequence;
use serial::Opening;
use unitwords::{OWN, Words};

// Makes a new unit with its own code and retry count.
#[unsafe(no_mangle)]
pub extern "C" fn hexbus_unit_make(unit: &mut Words, own: u8, retry: u32) -> u32
    ensures { UnitMade own retry unit.old result unit.new }
{
    match host::make(own, retry) {
        Ok(u) => {
            unitwords::save_new(unit, u);
            0
        }
        Err(e) => u32::from(e),
    }
}

// Steps a unit through a round. Refuses 5 for a nibble level, then 11 for lent memory that is too short for a unit of its kind.
#[unsafe(no_mangle)]
pub extern "C" fn hexbus_unit_step(
    unit: &mut Words,
    bav: bool,
    hsk: bool,
    nibble: u8,
    busy: bool,
    command: &mut [u8],
    input: &[u8; 256],
    output: &mut [u8],
) -> u32
    ensures { UnitStepped (lines_of bav hsk nibble) busy unit.old command.old input.now output.old result unit.new command.new output.new }
{
    if 15 < nibble {
        return 5;
    }
    if kind::is_short(
        kind::kind_of(words::number8(unit[OWN])),
        command.len(),
        output.len(),
    ) {
        return 11;
    }
    let seen = Lines { bav, hsk, nibble };
    unitround::round(unit, seen, busy, command, input, output);
    0
}

// What a unit pulls after its last step.
#[unsafe(no_mangle)]
pub extern "C" fn hexbus_unit_pulls(unit: &Words) -> u32
    ensures { result ≡ lines_number (pulls_of (loaded unit.now)) }
{
    words::lines(unitround::pulls(unit))
}

// Feeds a byte to a unit's input queue.
#[unsafe(no_mangle)]
pub extern "C" fn hexbus_unit_feed(unit: &mut Words, input: &mut [u8; 256], b: u8) -> u32
    ensures { UnitFed b unit.old input.old result unit.new input.new }
{
    let u = unitwords::load(unit);
    match host::feed(u, input, b) {
        Ok(v) => {
            unitwords::save(unit, v);
            0
        }
        Err(e) => u32::from(e),
    }
}

// Takes the oldest byte of a unit's output queue.
#[unsafe(no_mangle)]
pub extern "C" fn hexbus_unit_take(unit: &mut Words, output: &[u8; 256]) -> u32
    ensures { UnitTaken unit.old output.now result unit.new }
{
    let u = unitwords::load(unit);
    match host::take(u, output) {
        Some((b, v)) => {
            unitwords::save(unit, v);
            u32::from(b)
        }
        None => 256,
    }
}

// Raises a unit's request for service.
#[unsafe(no_mangle)]
pub extern "C" fn hexbus_unit_raise(unit: &mut Words) -> u32
    ensures { UnitRaised unit.old result unit.new }
{
    let u = unitwords::load(unit);
    match host::raise(u) {
        Ok(v) => {
            unitwords::save(unit, v);
            0
        }
        Err(e) => u32::from(e),
    }
}

// Looks at a unit.
#[unsafe(no_mangle)]
pub extern "C" fn hexbus_unit_look(unit: &Words, answer: &mut [u32; 6])
    ensures { answer.new ≡ looks_words (looks_of (loaded unit.now)) }
{
    let l = host::look(unitwords::load(unit));
    *answer = [
        unitwords::opening_number(l.opening),
        accepted(l.opening),
        l.input as u32,
        l.output as u32,
        words::bit(l.enabled),
        words::bit(l.requesting),
    ];
}

// Looks at a unit's screen.
#[unsafe(no_mangle)]
pub extern "C" fn hexbus_screen_look(unit: &Words, answer: &mut [u32; 8])
    ensures { answer.new ≡ screen_looks (loaded unit.now).serial.screen }
{
    let s = unitwords::load_screen(unit);
    *answer = [
        s.row as u32,
        s.column as u32,
        words::bit(s.scrolls),
        words::bit(s.wraps),
        words::bit(s.top),
        words::bit(s.bottom),
        words::bit(s.asked),
        words::bit(is_reading(s.sequence)),
    ];
}

fn is_reading(q: Sequence) -> bool
    ensures { result ≡ is_reading q }
{
    !matches!(q, Sequence::Plain)
}

fn accepted(o: Opening) -> u32
    ensures { result ≡ accepted_of o }
{
    match o {
        Opening::Closed => 0,
        Opening::OpenFor(_, accepted) => accepted as u32,
    }
}

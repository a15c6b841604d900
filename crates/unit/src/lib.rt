// A unit: its settings and state, its round, and what it pulls.

#![tactic(auto)]

ghost use Rattle.std.specs.Prelude.{◌≡◌, ◌&&◌, not, ◌+◌, min};
ghost use Rattle.unit.specs.Unit.{pulls_hsk, pulls_nibble, pulls_of, low_step, high_step, unit_step, unit_buffer, unit_output, asks};
ghost use Rattle.unit.specs.Calls.{stepping, buffer_after, output_after, stepped, number};

use line::Lines;
use phase::{Moved, Phase};
use serial::Serial;

#[derive(Clone, Copy)]
pub struct Unit {
    // Its own code, and for how many rounds BAV is seen high before its request pulls it.
    pub own: u8,
    pub retry: u16,
    // For how many rounds in a row BAV was seen high, up to the retry count.
    pub quiet: u16,
    // Whether it pulls BAV for its request.
    pub asking: bool,
    pub phase: Phase,
    pub serial: Serial,
}

// Why a step is refused.
#[derive(Clone, Copy, Debug, PartialEq, Eq)]
pub enum StepError {
    // Refusal 5: nibble level over 15.
    Level,
    // Refusal 11: lent memory is too short.
    Buffer,
}

impl From<StepError> for u32 {
    ghost from_gives = { λ e n. n ≡ number e };

    fn from(e: StepError) -> u32 {
        match e {
            StepError::Level => 5,
            StepError::Buffer => 11,
        }
    }
}

// A round: the levels that it sees, whether its host is busy, the lent command buffer, the bytes of its input queue, and the memory for what
// is written to it.
pub fn step(
    u: Unit,
    seen: Lines,
    busy: bool,
    buffer: &mut [u8],
    input: &[u8; 256],
    output: &mut [u8],
) -> Result<Unit, StepError>
    ensures { (stepped result ≡ stepping u seen busy buffer.old input.now output.old) × ((buffer.new ≡ buffer_after u seen busy buffer.old input.now output.old) × (output.new ≡ output_after u seen busy buffer.old input.now output.old)) }
{
    if 15 < seen.nibble {
        return Err(StepError::Level);
    }
    if kind::is_short(kind::kind_of(u.own), buffer.len(), output.len()) {
        return Err(StepError::Buffer);
    }
    Ok(round(u, seen, busy, buffer, input, output))
}

// What it pulls after its last step.
pub fn pulls(u: Unit) -> Lines
    ensures { result ≡ pulls_of u }
{
    Lines {
        bav: u.asking,
        hsk: pulls_hsk(u.phase),
        nibble: pulls_nibble(u.phase),
    }
}

fn round(
    u: Unit,
    seen: Lines,
    busy: bool,
    buffer: &mut [u8],
    input: &[u8; 256],
    output: &mut [u8],
) -> Unit
    ensures { (result ≡ unit_step u seen busy buffer.old input.now) × ((buffer.new ≡ unit_buffer u seen buffer.old) × (output.new ≡ unit_output u seen buffer.old output.old)) }
{
    if seen.bav {
        let m = phase::step(u.phase, u.own, u.serial, seen, busy, buffer, input, output);
        return lowered(u, seen.hsk, m);
    }
    dropped(u, seen.hsk)
}

// After a round with BAV seen low.
fn lowered(u: Unit, hsk: bool, m: Moved) -> Unit
    ensures { result ≡ low_step u hsk m }
{
    Unit {
        quiet: 0,
        asking: still_asks(u.asking, hsk),
        phase: m.phase,
        serial: m.serial,
        ..u
    }
}

// A request's pull is released at the first HSK low that is seen.
pub fn still_asks(asking: bool, hsk: bool) -> bool
    ensures { result ≡ asking && not hsk }
{
    asking && !hsk
}

// After a round with BAV seen high: the message is dropped.
fn dropped(u: Unit, hsk: bool) -> Unit
    ensures { result ≡ high_step u hsk }
{
    let serial = u.serial;
    let quiet = quiet_after(u.quiet, u.retry);
    let asking = asks(
        u.asking,
        serial.enabled,
        serial.requesting,
        u.retry,
        quiet,
        hsk,
    );
    Unit {
        quiet,
        asking,
        phase: Phase::Idle,
        ..u
    }
}

pub fn quiet_after(quiet: u16, retry: u16) -> u16
    ensures { result ≡ min (quiet + 1) retry }
{
    if quiet < retry { quiet + 1 } else { retry }
}

// Whether it pulls BAV for its request, after a round with BAV seen high.
pub fn asks(
    asking: bool,
    enabled: bool,
    requesting: bool,
    retry: u16,
    quiet: u16,
    hsk: bool,
) -> bool
    ensures { result ≡ asks asking enabled requesting retry quiet hsk }
{
    if asking {
        return if hsk { false } else { true };
    }
    if enabled {
        if requesting {
            return retry <= quiet;
        }
        return false;
    }
    false
}

fn pulls_hsk(phase: Phase) -> bool
    ensures { result ≡ pulls_hsk phase }
{
    match phase {
        Phase::Idle => false,
        Phase::Selecting(ear, _, _) | Phase::Receiving(ear, _) => ear.hsk(),
        Phase::Responding(_, _, sender, _) => sender.hsk(),
        Phase::SittingOut(last) => last,
    }
}

fn pulls_nibble(phase: Phase) -> u8
    ensures { result ≡ pulls_nibble phase }
{
    match phase {
        Phase::Responding(_, _, sender, _) => sender.nibble(),
        Phase::Selecting(_, _, _) | Phase::Receiving(_, _) | Phase::SittingOut(_) => 15,
        Phase::Idle => 15,
    }
}

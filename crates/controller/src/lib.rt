// The controller: its settings and state, its round, and what it pulls.

#![tactic(auto)]

ghost use Rattle.std.specs.Prelude.{◌≡◌};
ghost use Rattle.controller.specs.Controller.{with_stage, with_ring, is_idle, service, idle_step, ring_after, event_after, controller_step, event_in};
ghost use Rattle.controller.specs.Calls.{number, of_lent, stepping, stepped, controller_stepped, buffer_after};
ghost use Rattle.frame.specs.Frame.{pulls_of, frame_buffer};

use frame::{End, LentError, Stage};
use line::Lines;
use ring::Ring;
use turn::Event;

#[derive(Clone, Copy)]
pub struct Controller {
    // How many rounds in a row with HSK seen high end a frame.
    pub timeout: u16,
    // What a round touches.
    pub stage: Stage,
    // What only service frames, joins, removals and acknowledgements touch.
    pub ring: Ring,
}

// Why a step is refused.
#[derive(Clone, Copy, Debug, PartialEq, Eq)]
pub enum StepError {
    // Refusal 5: nibble level over 15.
    Level,
    // Refusal 10: the data differs in length from the submitted.
    Data,
    // Refusal 11: the response buffer is under the buffer length field.
    Buffer,
}

impl From<LentError> for StepError {
    ghost from_gives = { λ e s. s ≡ of_lent e };

    fn from(e: LentError) -> StepError {
        match e {
            LentError::Data => StepError::Data,
            LentError::Buffer => StepError::Buffer,
        }
    }
}

impl From<StepError> for u32 {
    ghost from_gives = { λ e n. n ≡ number e };

    fn from(e: StepError) -> u32 {
        match e {
            StepError::Level => 5,
            StepError::Data => 10,
            StepError::Buffer => 11,
        }
    }
}

// A round: the levels that it sees, whether its host is busy, and, looked at only in a submitted frame, the command's data and the
// response buffer. A refused one changes neither state nor buffer.
pub fn step(
    c: &mut Controller,
    seen: Lines,
    busy: bool,
    data: &[u8],
    response: &mut [u8],
) -> Result<Event, StepError>
    ensures outcome { stepped result ≡ stepping c.old seen busy «data».now response.old }
    ensures state { c.new ≡ controller_stepped c.old seen busy «data».now response.old }
    ensures buffer { response.new ≡ buffer_after c.old seen busy «data».now response.old }
{
    if 15 < seen.nibble {
        return Err(StepError::Level);
    }
    frame::check(c.stage, data.len(), response.len())?;
    Ok(round(c, seen, busy, data, response))
}

// What it pulls after its last step.
pub fn pulls(c: Controller) -> Lines
    ensures { result ≡ pulls_of c.stage }
{
    frame::pulls(c.stage)
}

// Whether it may start and has nothing submitted.
pub fn is_idle(stage: Stage) -> bool
    ensures { result ≡ is_idle stage }
{
    matches!(stage, Stage::Free)
}

// With another stage; nothing else of it changes.
pub fn with_stage(c: Controller, stage: Stage) -> Controller
    ensures { result ≡ with_stage c stage }
{
    Controller { stage, ..c }
}

// With another ring; nothing else of it changes.
pub fn with_ring(c: Controller, ring: Ring) -> Controller
    ensures { result ≡ with_ring c ring }
{
    Controller { ring, ..c }
}

fn round(c: &mut Controller, seen: Lines, busy: bool, data: &[u8], buffer: &mut [u8]) -> Event
    ensures event { result ≡ event_in c.old seen busy «data».now }
    ensures state { c.new ≡ controller_step c.old seen busy «data».now }
    ensures buffer { buffer.new ≡ frame_buffer c.old.stage seen buffer.old }
{
    if is_idle(c.stage) {
        *c = idle(*c, seen.bav);
        return Event::Nothing;
    }
    let m = frame::step(c.stage, c.timeout, seen, busy, data, buffer);
    c.stage = m.stage;
    match m.end {
        None => Event::Nothing,
        Some(end) => conclude(c, end),
    }
}

// A round of the idle controller: a service frame begins where BAV is seen low and the ring is not empty.
fn idle(c: Controller, bav: bool) -> Controller
    ensures { result ≡ idle_step c bav }
{
    if bav && c.ring.len() != 0 {
        service(c)
    } else {
        c
    }
}

fn service(c: Controller) -> Controller
    ensures { result ≡ service c }
{
    let stage = frame::begin(turn::frame_of(c.ring.entry(0)));
    with_ring(with_stage(c, stage), c.ring.turned())
}

// A frame has ended.
fn conclude(c: &mut Controller, end: End) -> Event
    ensures event { result ≡ event_after (Some end) }
    ensures state { c.new ≡ with_ring c.old (ring_after c.old.ring (Some end)) }
{
    c.ring = turn::ring_after(c.ring, end.frame, end.status);
    turn::event_of(end.frame, end.status, end.count)
}

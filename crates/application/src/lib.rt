// The calls of the application: to make a controller, submit a command, acknowledge a request, and look at the controller.

#![tactic(auto)]

ghost use Rattle.std.specs.Prelude.{◌≡◌, length};
ghost use Rattle.controller.specs.Controller.{new_controller};
ghost use Rattle.application.specs.Calls.{make_number, submit_number, acknowledge_number, making, made, controller_made, is_shut_out, submitting, submitted, with_command, controller_submitted, acknowledging, acknowledged, without_mark, controller_acknowledged, is_submitted, may_start, looks_of};

use controller::Controller;
use frame::Stage;
use header::Command;
use ring::Ring;

// The time-out count of a controller where nobody asks for another.
pub const TIMEOUT: u32 = 200;

// What making a controller comes to. A refusal has a controller beside it too, with the default time-out, so that this is no `Result`.
#[derive(Clone, Copy)]
pub struct Made {
    pub controller: Controller,
    pub outcome: Result<(), MakeError>,
}

// Refusal 5: time-out not 8 to 65,535.
#[derive(Clone, Copy, Debug, PartialEq, Eq)]
pub struct MakeError;

// Why a command is not accepted.
#[derive(Clone, Copy, Debug, PartialEq, Eq)]
pub enum SubmitError {
    // Refusal 1: one is submitted, or a frame or its rest runs.
    Running,
    // Refusal 2: data over 65,535.
    TooLong,
    // Refusal 3: command 0A.
    PollCommand,
    // Refusal 4: 08 for a code not in a full ring.
    FullRing,
    // Refusal 11: the response buffer is under the buffer length field.
    ShortResponse,
}

// Refusal 8: the code is not in the ring or not marked.
#[derive(Clone, Copy, Debug, PartialEq, Eq)]
pub struct NotMarked;

impl From<MakeError> for u32 {
    ghost from_gives = { λ e n. n ≡ make_number e };

    fn from(_e: MakeError) -> u32 {
        5
    }
}

impl From<SubmitError> for u32 {
    ghost from_gives = { λ e n. n ≡ submit_number e };

    fn from(e: SubmitError) -> u32 {
        match e {
            SubmitError::Running => 1,
            SubmitError::TooLong => 2,
            SubmitError::PollCommand => 3,
            SubmitError::FullRing => 4,
            SubmitError::ShortResponse => 11,
        }
    }
}

impl From<NotMarked> for u32 {
    ghost from_gives = { λ e n. n ≡ acknowledge_number e };

    fn from(_e: NotMarked) -> u32 {
        8
    }
}

// What an application may look at: the ring in order with its marks; whether no frame and no rest runs; whether a command is
// submitted whose frame has not begun.
#[derive(Clone, Copy)]
pub struct Looks {
    pub ring: Ring,
    pub may_start: bool,
    pub submitted: bool,
}

// A new controller with its time-out count.
pub fn make(timeout: u32) -> Made
    ensures outcome { made result.outcome ≡ making timeout }
    ensures controller { result.controller ≡ controller_made timeout }
{
    if timeout < 8 || 65535 < timeout {
        return Made {
            controller: new(200),
            outcome: Err(MakeError),
        };
    }
    Made {
        controller: new(timeout as u16),
        outcome: Ok(()),
    }
}

// A command for the next frame. Each step of that frame is lent data of this length, and a response buffer that is long enough. A
// refusal leaves the controller as it was.
pub fn submit(
    c: &mut Controller,
    k: Command,
    data: &[u8],
    response: &[u8],
) -> Result<(), SubmitError>
    ensures outcome { submitted result ≡ submitting c.old k (length «data».now) (length response.now) }
    ensures state { c.new ≡ controller_submitted c.old k (length «data».now) (length response.now) }
{
    if !controller::is_idle(c.stage) {
        return Err(SubmitError::Running);
    }
    if 65535 < data.len() {
        return Err(SubmitError::TooLong);
    }
    if k.command == 0x0A {
        return Err(SubmitError::PollCommand);
    }
    if is_shut_out(k, c.ring) {
        return Err(SubmitError::FullRing);
    }
    if response.len() < k.buffer_length as usize {
        return Err(SubmitError::ShortResponse);
    }
    *c = with_command(*c, k, data.len() as u16);
    Ok(())
}

// The application has dealt with the request of a code that was handed to it. A refusal leaves the controller as it was.
pub fn acknowledge(c: &mut Controller, code: u8) -> Result<(), NotMarked>
    ensures outcome { acknowledged result ≡ acknowledging c.old code }
    ensures state { c.new ≡ controller_acknowledged c.old code }
{
    if !c.ring.is_marked(code) {
        return Err(NotMarked);
    }
    *c = without_mark(*c, code);
    Ok(())
}

// What an application may look at.
pub fn look(c: Controller) -> Looks
    ensures { result ≡ looks_of c }
{
    Looks {
        ring: c.ring,
        may_start: may_start(c.stage),
        submitted: is_submitted(c.stage),
    }
}

fn new(timeout: u16) -> Controller
    ensures { result ≡ new_controller timeout }
{
    Controller {
        timeout,
        stage: Stage::Free,
        ring: Ring::new(),
    }
}

// Whether a command would put a code into a ring that is full.
fn is_shut_out(k: Command, ring: Ring) -> bool
    ensures { result ≡ is_shut_out k ring }
{
    k.command == 0x08 && !ring.has(k.device) && 16 <= ring.len()
}

// The frame of a command, of which so many bytes are data, begins in the next step.
fn with_command(c: Controller, k: Command, length: u16) -> Controller
    ensures { result ≡ with_command c k length }
{
    controller::with_stage(c, Stage::Waiting(frame::submitted(k, length)))
}

fn without_mark(c: Controller, code: u8) -> Controller
    ensures { result ≡ without_mark c code }
{
    controller::with_ring(c, c.ring.with_mark(code, false))
}

fn may_start(stage: Stage) -> bool
    ensures { result ≡ may_start stage }
{
    matches!(stage, Stage::Free | Stage::Waiting(_))
}

fn is_submitted(stage: Stage) -> bool
    ensures { result ≡ is_submitted stage }
{
    matches!(stage, Stage::Waiting(_))
}

// A frame of the controller, round by round on the lines; the ring is not seen here.

#![tactic(auto)]

ghost use Rattle.std.specs.Prelude.{◌≡◌, ◌&&◌};
ghost use Rattle.frame.specs.Frame.{bare, submitted_frame, poll_of, null_frame, is_submitted, begun, data_of, nibble_of, last_of, next_nibble, sending_step, stays, over, ends_by, waited, listening_step, listening_buffer, rest_step, frame_step, frame_buffer, number, lent_with, lent_to, lent_at, pulls_of};
ghost use Rattle.answer.specs.Answer.{is_over};
ghost use Rattle.line.specs.Line.{send_of, is_ready};

use answer::Response;
use header::Command;
use line::{Lines, Listener, Sender};

#[derive(Clone, Copy, Debug, PartialEq, Eq)]
pub enum Kind {
    Submitted,
    Poll,
    Null,
}

// What a frame sends: its command, and how many bytes of data go with it.
#[derive(Clone, Copy)]
pub struct Frame {
    pub kind: Kind,
    pub command: Command,
    pub data_length: u16,
}

// Where the controller is, each case with what it carries.
#[derive(Clone, Copy)]
pub enum Stage {
    // It may start, and nothing is submitted.
    Free,
    // After a frame: whether this is the first of its two rounds of rest.
    Resting(bool),
    // A command is submitted: its frame begins in the next step.
    Waiting(Frame),
    // The nibble that is next, the sender, and whether a round is still to pass before the first.
    Sending(Frame, u32, Sender, bool),
    // The listener, the response so far, and for how many rounds in a row HSK was seen high.
    Listening(Frame, Listener, Response, u16),
}

// How a frame ended: the frame, its status, and how many data bytes stand in the response buffer.
#[derive(Clone, Copy)]
pub struct End {
    pub frame: Frame,
    pub status: u8,
    pub count: u16,
}

#[derive(Clone, Copy)]
pub struct Moved {
    pub stage: Stage,
    pub end: Option<End>,
}

// Why what a step is lent does not fit its frame.
#[derive(Clone, Copy, Debug, PartialEq, Eq)]
pub enum LentError {
    // Refusal 10: data that differs in length from the submitted.
    Data,
    // Refusal 11: a response buffer under the buffer length field.
    Buffer,
}

impl From<LentError> for u32 {
    ghost from_gives = { λ e n. n ≡ number e };

    fn from(e: LentError) -> u32 {
        match e {
            LentError::Data => 10,
            LentError::Buffer => 11,
        }
    }
}

// A submitted command with n bytes of data.
pub fn submitted(c: Command, n: u16) -> Frame
    ensures { result ≡ submitted_frame c n }
{
    Frame {
        kind: Kind::Submitted,
        command: c,
        data_length: n,
    }
}

// The poll of a code.
pub fn poll(code: u8) -> Frame
    ensures { result ≡ poll_of code }
{
    Frame {
        kind: Kind::Poll,
        command: bare(code, 0x0A),
        data_length: 0,
    }
}

// The null message, to code 0.
pub fn null() -> Frame
    ensures { result ≡ null_frame }
{
    Frame {
        kind: Kind::Null,
        command: bare(0, 0xFE),
        data_length: 0,
    }
}

// A frame that begins in this round.
pub fn begin(f: Frame) -> Stage
    ensures { result ≡ begun f }
{
    Stage::Sending(f, 0, Sender::Next, true)
}

// A round: the levels that are seen, whether the host is busy, the lent data and response buffer.
pub fn step(
    stage: Stage,
    timeout: u16,
    seen: Lines,
    busy: bool,
    data: &[u8],
    buffer: &mut [u8],
) -> Moved
    ensures { (result ≡ frame_step stage timeout seen busy «data».now) × (buffer.new ≡ frame_buffer stage seen buffer.old) }
{
    match stage {
        Stage::Free => stays(Stage::Free),
        Stage::Resting(first) => stays(rest(first)),
        Stage::Waiting(f) => stays(begin(f)),
        Stage::Sending(f, i, sender, wait) => stays(sending(f, i, sender, wait, seen.hsk, data)),
        Stage::Listening(f, ear, response, quiet) => listening(
            f, ear, response, quiet, timeout, seen, busy, buffer,
        ),
    }
}

// What it pulls.
pub fn pulls(stage: Stage) -> Lines
    ensures { result ≡ pulls_of stage }
{
    match stage {
        Stage::Free | Stage::Resting(_) | Stage::Waiting(_) => lines(false, false, 15),
        Stage::Sending(_, _, sender, _) => lines(true, sender.hsk(), sender.nibble()),
        Stage::Listening(_, ear, _, _) => lines(true, ear.hsk(), 15),
    }
}

// Whether n bytes of data and a response buffer of so many bytes are what a step is to be lent. Only a submitted frame looks at them.
pub fn check(stage: Stage, n: usize, room: usize) -> Result<(), LentError>
    ensures { result ≡ lent_at stage n room }
{
    match stage {
        Stage::Free | Stage::Resting(_) => Ok(()),
        Stage::Waiting(f) | Stage::Sending(f, _, _, _) | Stage::Listening(f, _, _, _) => {
            check_frame(f, n, room)
        }
    }
}

fn bare(device: u8, command: u8) -> Command
    ensures { result ≡ bare device command }
{
    Command {
        device,
        command,
        logical_unit: 0,
        record_number: 0,
        buffer_length: 0,
    }
}

fn stays(stage: Stage) -> Moved
    ensures { result ≡ stays stage }
{
    Moved { stage, end: None }
}

fn rest(first: bool) -> Stage
    ensures { result ≡ rest_step first }
{
    if first {
        Stage::Resting(false)
    } else {
        Stage::Free
    }
}

fn sending(f: Frame, i: u32, sender: Sender, wait: bool, hsk: bool, data: &[u8]) -> Stage
    ensures { result ≡ sending_step f i sender wait hsk «data».now }
{
    if wait {
        return Stage::Sending(f, i, sender, false);
    }
    if sender.sent(hsk) {
        return next_nibble(f, i);
    }
    Stage::Sending(f, i, place_nibble(f, i, sender, hsk, data), false)
}

fn next_nibble(f: Frame, i: u32) -> Stage
    ensures { result ≡ next_nibble f i }
{
    if i < last_nibble(f.data_length) {
        return Stage::Sending(f, i + 1, Sender::Next, false);
    }
    Stage::Listening(f, Listener::Ready, Response::new(), 0)
}

// The number of the last nibble, from 0, of a command with n bytes of data.
pub fn last_nibble(n: u16) -> u32
    ensures { result ≡ last_of n }
{
    17 + 2 * (n as u32)
}

// The sender's round. The nibble is worked out only in the round in which it is placed.
fn place_nibble(f: Frame, i: u32, sender: Sender, hsk: bool, data: &[u8]) -> Sender
    ensures { result ≡ send_of sender hsk (nibble_of f «data».now i) }
{
    match sender {
        Sender::Next => sender.step(hsk, nibble(f, i, data)),
        Sender::Placed(_) | Sender::Kept(_) => sender.step(hsk, 15),
    }
}

// Nibble i of a frame whose data is lent.
pub fn nibble(f: Frame, i: u32, data: &[u8]) -> u8
    ensures { result ≡ nibble_of f «data».now i }
{
    let i = i as usize;
    if is_submitted(f.kind) {
        return command::nibble(f.command, data, i);
    }
    command::nibble(f.command, &[], i)
}

fn is_submitted(kind: Kind) -> bool
    ensures { result ≡ is_submitted kind }
{
    matches!(kind, Kind::Submitted)
}

fn listening(
    f: Frame,
    ear: Listener,
    response: Response,
    quiet: u16,
    timeout: u16,
    seen: Lines,
    busy: bool,
    buffer: &mut [u8],
) -> Moved
    ensures { (result ≡ listening_step f ear response quiet timeout seen busy) × (buffer.new ≡ listening_buffer f ear response seen buffer.old) }
{
    let next = ear.step(seen.hsk, busy);
    if ear.taken(seen.hsk) {
        let stores = is_submitted(f.kind);
        let more = response.with(seen.nibble, f.command.buffer_length, stores, buffer);
        return stays(Stage::Listening(f, next, more, 0));
    }
    let quiet = if seen.hsk { 0 } else { quiet as u32 + 1 };
    waits(f, next, response, timeout, quiet)
}

// A round without a nibble, after which HSK was seen high for so many in a row.
fn waits(f: Frame, ear: Listener, response: Response, timeout: u16, quiet: u32) -> Moved
    ensures { result ≡ waited f ear response timeout quiet }
{
    if ends(has_ended(response, ear), timeout, quiet) {
        return over(f, response);
    }
    stays(Stage::Listening(f, ear, response, quiet as u16))
}

// Whether a frame ends in a round without a nibble: it is done, or HSK was seen high for as many rounds as the time-out.
pub fn ends(done: bool, timeout: u16, quiet: u32) -> bool
    ensures { result ≡ ends_by done timeout quiet }
{
    done || timeout as u32 <= quiet
}

// Whether HSK was seen high after the response's last nibble, or after a length that is too large.
fn has_ended(response: Response, ear: Listener) -> bool
    ensures { result ≡ is_over response && is_ready ear }
{
    response.is_over() && ear.is_ready()
}

fn over(f: Frame, response: Response) -> Moved
    ensures { result ≡ over f response }
{
    Moved {
        stage: Stage::Resting(true),
        end: Some(End {
            frame: f,
            status: response.status(),
            count: response.count(),
        }),
    }
}

fn check_frame(f: Frame, n: usize, room: usize) -> Result<(), LentError>
    ensures { result ≡ lent_to f n room }
{
    lent_with(
        is_submitted(f.kind),
        f.data_length,
        f.command.buffer_length,
        n,
        room,
    )
}

// Whether n bytes of data and a response buffer of so many bytes fit a frame: submitted or not, its data's length and its buffer length.
pub fn lent_with(
    submitted: bool,
    data_length: u16,
    buffer_length: u16,
    n: usize,
    room: usize,
) -> Result<(), LentError>
    ensures { result ≡ lent_with submitted data_length buffer_length n room }
{
    if !submitted {
        return Ok(());
    }
    if n != data_length as usize {
        return Err(LentError::Data);
    }
    if room < buffer_length as usize {
        return Err(LentError::Buffer);
    }
    Ok(())
}

fn lines(bav: bool, hsk: bool, nibble: u8) -> Lines
    ensures { result ≡ (record { bav = bav; hsk = hsk; nibble = nibble }) }
{
    Lines { bav, hsk, nibble }
}

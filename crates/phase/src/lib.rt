// The peripheral's phase, and its round while BAV is seen low, one function to a phase.

#![tactic(auto)]

ghost use Rattle.std.specs.Prelude.{◌≡◌, ◌≤◌, length, []};
ghost use Rattle.phase.specs.Phase.{idle_step, selected, selecting_step, buffer_with, answered, stored, byte_step, byte_buffer, byte_output, taking_step, taking_buffer, taking_output, replied, answered_step, done, responding_step, receiving_step, receiving_buffer, receiving_output, phase_step, phase_buffer, phase_output, stored_data, moves, partial, with_byte};
ghost use Rattle.header.specs.Header.{header_in};

use header::Header;
use line::{Lines, Listener, Sender};
use serial::{Reply, Serial};

// A command that is being taken: its header so far, the byte that is next, and whether that byte's low nibble is there.
#[derive(Clone, Copy)]
pub struct Partial {
    pub header: Header,
    pub place: u32,
    pub half: bool,
    pub low: u8,
}

// A command on its way: not all there yet, or whole, its reply fixed.
#[derive(Clone, Copy)]
pub enum Progress {
    Taking(Partial),
    Answered(Reply),
}

// The phase, each case with what it carries.
#[derive(Clone, Copy)]
pub enum Phase {
    Idle,
    // The listener, whether the device code's low nibble is there, and that nibble.
    Selecting(Listener, bool, u8),
    Receiving(Listener, Progress),
    // The reply, the nibble that is next, the sender, and whether a round is still to pass before it begins.
    Responding(Reply, u32, Sender, bool),
    // Whether this is the round in which it took its last nibble, whose pull of HSK stands.
    SittingOut(bool),
}

// A phase, and the state beside it.
#[derive(Clone, Copy)]
pub struct Moved {
    pub phase: Phase,
    pub serial: Serial,
}

// A round of a unit with this code, while BAV is seen low. Only receiving changes lent memory. What it is lent and what it sees stand singly,
// here and below: a struct of them would hold two `&mut`s, which each function that stores would take apart again, and none needs all of it.
pub fn step(
    phase: Phase,
    own: u8,
    s: Serial,
    seen: Lines,
    busy: bool,
    buffer: &mut [u8],
    input: &[u8; 256],
    output: &mut [u8],
) -> Moved
    ensures { (result ≡ phase_step phase own s seen busy buffer.old input.now) × ((buffer.new ≡ phase_buffer phase seen buffer.old) × (output.new ≡ phase_output phase own s seen buffer.old output.old)) }
{
    match phase {
        Phase::Idle => moves(idle(seen.hsk), s),
        Phase::Selecting(ear, half, low) => moves(selecting(own, ear, half, low, seen, busy), s),
        Phase::Receiving(ear, progress) => receiving(
            own, s, ear, progress, seen, busy, buffer, output,
        ),
        Phase::Responding(reply, i, sender, wait) => responding(
            s, reply, i, sender, wait, seen.hsk, input,
        ),
        Phase::SittingOut(_) => moves(Phase::SittingOut(false), s),
    }
}

fn moves(phase: Phase, serial: Serial) -> Moved
    ensures { result ≡ moves phase serial }
{
    Moved { phase, serial }
}

// Idle, and BAV is seen low.
pub fn idle(hsk: bool) -> Phase
    ensures { result ≡ idle_step hsk }
{
    if hsk {
        return Phase::SittingOut(false);
    }
    Phase::Selecting(Listener::Ready, false, 0)
}

fn selecting(own: u8, ear: Listener, half: bool, low: u8, seen: Lines, busy: bool) -> Phase
    ensures { result ≡ selecting_step own ear half low seen busy }
{
    if ear.taken(seen.hsk) {
        if half {
            return select(own, field::byte_of(low, seen.nibble));
        }
        return Phase::Selecting(Listener::Holding, true, seen.nibble);
    }
    Phase::Selecting(ear.step(seen.hsk, busy), half, low)
}

// Selecting, and the device code is there.
pub fn select(own: u8, code: u8) -> Phase
    ensures { result ≡ selected own code }
{
    if code == own || code == 0 {
        return addressed(code);
    }
    Phase::SittingOut(true)
}

fn addressed(code: u8) -> Phase
    ensures { result ≡ Phase.Receiving Listener.Holding (Progress.Taking (partial (with_byte (header_in []) 0 code) 1)) }
{
    let header = Header::new().with(0, code);
    Phase::Receiving(Listener::Holding, Progress::Taking(whole_bytes(header, 1)))
}

// A command whose next byte is not begun.
pub fn whole_bytes(header: Header, place: u32) -> Partial
    ensures { result ≡ partial header place }
{
    Partial {
        header,
        place,
        half: false,
        low: 0,
    }
}

fn receiving(
    own: u8,
    s: Serial,
    ear: Listener,
    progress: Progress,
    seen: Lines,
    busy: bool,
    buffer: &mut [u8],
    output: &mut [u8],
) -> Moved
    ensures { (result ≡ receiving_step own s ear progress seen busy buffer.old) × ((buffer.new ≡ receiving_buffer ear progress seen buffer.old) × (output.new ≡ receiving_output own s ear progress seen buffer.old output.old)) }
{
    match progress {
        Progress::Taking(p) => taking(own, s, ear, p, seen, busy, buffer, output),
        Progress::Answered(reply) => moves(answered(ear, reply, seen.hsk, busy), s),
    }
}

fn taking(
    own: u8,
    s: Serial,
    ear: Listener,
    p: Partial,
    seen: Lines,
    busy: bool,
    buffer: &mut [u8],
    output: &mut [u8],
) -> Moved
    ensures { (result ≡ taking_step own s ear p seen busy buffer.old) × ((buffer.new ≡ taking_buffer ear p seen buffer.old) × (output.new ≡ taking_output own s ear p seen buffer.old output.old)) }
{
    if ear.taken(seen.hsk) {
        if p.half {
            return take_byte(
                own,
                s,
                p,
                field::byte_of(p.low, seen.nibble),
                buffer,
                output,
            );
        }
        let next = Partial {
            half: true,
            low: seen.nibble,
            ..p
        };
        return moves(
            Phase::Receiving(Listener::Holding, Progress::Taking(next)),
            s,
        );
    }
    moves(
        Phase::Receiving(ear.step(seen.hsk, busy), Progress::Taking(p)),
        s,
    )
}

fn take_byte(own: u8, s: Serial, p: Partial, b: u8, buffer: &mut [u8], output: &mut [u8]) -> Moved
    ensures { (result ≡ byte_step own s p b buffer.old) × ((buffer.new ≡ byte_buffer p b buffer.old) × (output.new ≡ byte_output own s p b buffer.old output.old)) }
{
    let place = p.place;
    let header = p.header.with(wide(place), b);
    let n = header.data_length;
    put(n, place, b, buffer);
    if 8 + n as u32 <= place {
        return answer(own, s, header, buffer, output);
    }
    moves(
        Phase::Receiving(
            Listener::Holding,
            Progress::Taking(whole_bytes(header, place + 1)),
        ),
        s,
    )
}

// Stores a data byte at its place of the lent buffer.
pub fn put(n: u16, place: u32, b: u8, buffer: &mut [u8])
    ensures { buffer.new ≡ buffer_with n place b buffer.old }
{
    if 9 <= place && n <= 256 {
        let i = wide(place - 9);
        if i < usize::from(n) && i < buffer.len() {
            buffer[i] = b;
        }
    }
}

pub fn wide(n: u32) -> usize
    ensures { result ≡ n }
{
    n as usize
}

// The command is whole: what a unit with this code makes of it goes by its kind.
pub fn answer(own: u8, s: Serial, header: Header, buffer: &[u8], output: &mut [u8]) -> Moved
    ensures { (result ≡ answered own s header buffer.now) × (output.new ≡ stored own s header buffer.now output.old) }
{
    let c = header.command;
    let n = usize::from(header.data_length);
    let d = data_in(n, buffer);
    let v = kind::verdict_of(kind::kind_of(own), s, c, n, d);
    let after = s.after(v.effect, d, output);
    moves(
        Phase::Receiving(Listener::Holding, Progress::Answered(v.reply)),
        after,
    )
}

fn data_in(n: usize, buffer: &[u8]) -> &[u8]
    ensures { result.now ≡ stored_data n buffer.now }
{
    if 256 < n {
        return &buffer[..0];
    }
    if n <= buffer.len() {
        return &buffer[0..n];
    }
    &buffer[0..]
}

fn answered(ear: Listener, reply: Reply, hsk: bool, busy: bool) -> Phase
    ensures { result ≡ answered_step ear reply hsk busy }
{
    let next = ear.step(hsk, busy);
    if next.is_ready() {
        return replied(reply);
    }
    Phase::Receiving(next, Progress::Answered(reply))
}

// HSK was seen high after the last nibble: the response waits for its round, unless there is none.
pub fn replied(reply: Reply) -> Phase
    ensures { result ≡ replied reply }
{
    if reply::is_silent(reply) {
        return Phase::SittingOut(false);
    }
    Phase::Responding(reply, 0, Sender::Next, true)
}

fn responding(
    s: Serial,
    reply: Reply,
    i: u32,
    sender: Sender,
    wait: bool,
    hsk: bool,
    input: &[u8; 256],
) -> Moved
    ensures { result ≡ responding_step s reply i sender wait hsk input.now }
{
    if wait {
        return moves(Phase::Responding(reply, i, sender, false), s);
    }
    let q = s.input;
    if sender.sent(hsk) {
        if wide(i) < reply::last(reply, q) {
            return moves(Phase::Responding(reply, i + 1, Sender::Next, false), s);
        }
        return done(s, reply);
    }
    let n = reply::nibble(reply, q, input, wide(i));
    moves(Phase::Responding(reply, i, sender.step(hsk, n), false), s)
}

// The last nibble is done: what waited for it happens.
pub fn done(s: Serial, reply: Reply) -> Moved
    ensures { result ≡ done s reply }
{
    moves(Phase::SittingOut(false), s.finish(reply))
}

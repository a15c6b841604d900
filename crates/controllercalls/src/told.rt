// What a step of the controller has come to.
use controller::{Controller, StepError};
use frame::{Frame, Kind, Stage};
use ring::Ring;
use statement::{Event, Framed, Stepped};

// From the stage before it.
pub fn stepped(before: Stage, c: &Controller, outcome: Result<turn::Event, StepError>) -> Stepped {
    Stepped {
        frame: framed(before, c),
        event: outcome.map(event_of).map_err(u32::from),
    }
}

// A request of code 0 is not told.
fn event_of(event: turn::Event) -> Option<Event> {
    match event {
        turn::Event::Ended(status, n) => Some(Event::Ended(status, n)),
        turn::Event::Handed(code) if code != 0 => Some(Event::Handed(code)),
        _ => None,
    }
}

// A frame that begins, or a service frame that ends.
fn framed(before: Stage, c: &Controller) -> Option<Framed> {
    match (before, c.stage) {
        (Stage::Free, Stage::Sending(f, _, _, _)) => Some(service(&f, &c.ring)),
        (Stage::Waiting(f), _) => Some(begun(&f)),
        (Stage::Listening(f, _, r, _), Stage::Resting(_)) => ended(&f, r.status()),
        _ => None,
    }
}

// The application's frame begins.
fn begun(f: &Frame) -> Framed {
    Framed::Begun {
        code: f.command.device,
        command: f.command.command,
        buffer: f.command.buffer_length,
        length: f.data_length,
    }
}

// A service frame begins: the entry whose turn it is has moved to the back.
fn service(f: &Frame, ring: &Ring) -> Framed {
    let code = ring.entry(ring.len().saturating_sub(1)).code;
    match f.kind {
        Kind::Null => Framed::Null(code),
        _ => Framed::Poll(code),
    }
}

// A service frame has ended where the controller listened and now rests.
fn ended(f: &Frame, status: u8) -> Option<Framed> {
    match f.kind {
        Kind::Submitted => None,
        Kind::Poll => Some(Framed::PollEnded(f.command.device, status)),
        Kind::Null => Some(Framed::NullEnded(status)),
    }
}

// A turn of the ring: the frame of an entry's turn, and what a frame that has ended does to the ring and tells the application.

#![tactic(auto)]

ghost use Rattle.std.specs.Prelude.{◌≡◌};
ghost use Rattle.turn.specs.Turn.{turn_of, ring_with, ring_ended, handed, event_of};

use frame::{Frame, Kind};
use header::Command;
use ring::{Entry, Ring};

// What the application is told of a round.
#[derive(Clone, Copy, Debug, PartialEq, Eq)]
pub enum Event {
    Nothing,
    // Its command ended with a status; so many data bytes stand at the front of the response buffer.
    Ended(u8, u16),
    // A request of this code is handed to it.
    Handed(u8),
}

// The frame of an entry's turn: a poll, or a null message while it is marked.
pub fn frame_of(e: Entry) -> Frame
    ensures { result ≡ turn_of e }
{
    if e.marked {
        frame::null()
    } else {
        frame::poll(e.code)
    }
}

// The ring after a frame that ended with a status.
pub fn ring_after(ring: Ring, f: Frame, status: u8) -> Ring
    ensures { result ≡ ring_ended ring f status }
{
    if status != 0x00 {
        return ring;
    }
    let k = f.command;
    match f.kind {
        Kind::Submitted => ring_with(ring, k),
        Kind::Poll => ring.with_mark(k.device, true),
        Kind::Null => ring,
    }
}

// What the application is told of a frame that ended with a status, and so many data bytes in the response buffer.
pub fn event_of(f: Frame, status: u8, count: u16) -> Event
    ensures { result ≡ event_of f status count }
{
    match f.kind {
        Kind::Submitted => Event::Ended(status, count),
        Kind::Poll => handed(f.command.device, status),
        Kind::Null => Event::Nothing,
    }
}

fn ring_with(ring: Ring, k: Command) -> Ring
    ensures { result ≡ ring_with ring k }
{
    match k.command {
        0x08 => ring.joined(k.device),
        0x09 | 0x01 => ring.removed(k.device),
        _ => ring,
    }
}

// A poll that ends with 00 hands its code to the application.
fn handed(code: u8, status: u8) -> Event
    ensures { result ≡ handed code status }
{
    if status == 0x00 {
        Event::Handed(code)
    } else {
        Event::Nothing
    }
}

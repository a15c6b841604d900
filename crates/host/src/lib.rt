// The calls of a unit's host: to make it, feed it, take from it, raise a request, and look at it.

#![tactic(auto)]

ghost use Rattle.std.specs.Prelude.{◌≡◌};
ghost use Rattle.unit.specs.Unit.{new_unit};
ghost use Rattle.host.specs.Calls.{making, made, feeding, input_after, fed, taking, raising, raised, looks_of, with_serial, make_number, feed_number, raise_number};
ghost use Rattle.serial.specs.Serial.{with_output};

use phase::Phase;
use queue::Queue;
use serial::{Opening, Serial};
use unit::Unit;

// The retry count of a unit where nobody asks for another.
pub const RETRY: u32 = 20;

// Why a unit is not made.
#[derive(Clone, Copy, Debug, PartialEq, Eq)]
pub enum MakeError {
    // Refusal 5: own code 0, or retry not 4 to 65,535.
    Setting,
}

impl From<MakeError> for u32 {
    ghost from_gives = { λ e n. n ≡ make_number e };

    fn from(e: MakeError) -> u32 {
        match e {
            MakeError::Setting => 5,
        }
    }
}

// Why a byte is not fed.
#[derive(Clone, Copy, Debug, PartialEq, Eq)]
pub enum FeedError {
    // Refusal 6: the input queue is full.
    Full,
    // Refusal 7: not open for input or update.
    NotOpen,
}

impl From<FeedError> for u32 {
    ghost from_gives = { λ e n. n ≡ feed_number e };

    fn from(e: FeedError) -> u32 {
        match e {
            FeedError::Full => 6,
            FeedError::NotOpen => 7,
        }
    }
}

// Why a request is not raised.
#[derive(Clone, Copy, Debug, PartialEq, Eq)]
pub enum RaiseError {
    // Refusal 7: not enabled.
    NotEnabled,
}

impl From<RaiseError> for u32 {
    ghost from_gives = { λ e n. n ≡ raise_number e };

    fn from(e: RaiseError) -> u32 {
        match e {
            RaiseError::NotEnabled => 7,
        }
    }
}

// What an application may look at: open and how, how many bytes are queued, enabled, requesting.
#[derive(Clone, Copy)]
pub struct Looks {
    pub opening: Opening,
    pub input: usize,
    pub output: usize,
    pub enabled: bool,
    pub requesting: bool,
}

// A new unit with its own code and retry count.
pub fn make(own: u8, retry: u32) -> Result<Unit, MakeError>
    ensures { made result ≡ making own retry }
{
    if own == 0 || !(4..=65535).contains(&retry) {
        return Err(MakeError::Setting);
    }
    Ok(new(own, retry as u16))
}

// A byte for its input queue, whose bytes are lent.
pub fn feed(u: Unit, input: &mut [u8; 256], b: u8) -> Result<Unit, FeedError>
    ensures { (fed result ≡ feeding u b) × (input.new ≡ input_after u b input.old) }
{
    let s = u.serial;
    if !kind::is_fed(kind::kind_of(u.own), s.opening) {
        return Err(FeedError::NotOpen);
    }
    if s.input.room() == 0 {
        return Err(FeedError::Full);
    }
    let longer = s.input.push(input, b);
    Ok(with_serial(u, Serial { input: longer, ..s }))
}

// The oldest byte of its output queue, whose bytes are lent.
pub fn take(u: Unit, output: &[u8; 256]) -> Option<(u8, Unit)>
    ensures { result ≡ taking u output.now }
{
    let (b, rest) = u.serial.output.pop(output)?;
    Some((b, without_front(u, rest)))
}

// A request for service, held until its answer 00 has gone out or service ends.
pub fn raise(u: Unit) -> Result<Unit, RaiseError>
    ensures { raised result ≡ raising u }
{
    let s = u.serial;
    if !s.enabled {
        return Err(RaiseError::NotEnabled);
    }
    Ok(with_serial(
        u,
        Serial {
            requesting: true,
            ..s
        },
    ))
}

// What an application may look at.
pub fn look(u: Unit) -> Looks
    ensures { result ≡ looks_of u }
{
    let s = u.serial;
    Looks {
        opening: s.opening,
        input: s.input.len(),
        output: s.output.len(),
        enabled: s.enabled,
        requesting: s.requesting,
    }
}

fn new(own: u8, retry: u16) -> Unit
    ensures { result ≡ new_unit own retry }
{
    Unit {
        own,
        retry,
        quiet: 0,
        asking: false,
        phase: Phase::Idle,
        serial: Serial::new(),
    }
}

fn with_serial(u: Unit, serial: Serial) -> Unit
    ensures { result ≡ with_serial u serial }
{
    Unit { serial, ..u }
}

fn without_front(u: Unit, rest: Queue) -> Unit
    ensures { result ≡ with_serial u (with_output u.serial rest) }
{
    with_serial(
        u,
        Serial {
            output: rest,
            ..u.serial
        },
    )
}

// The kinds of unit: all that differs between them stands here. A unit's kind follows from its own code.

#![tactic(auto)]

ghost use Rattle.std.specs.Prelude.{◌≡◌};
ghost use Rattle.kind.specs.Kinds.{kind_of, checks_of, reset_of, verdict_of, is_fed, lent_to, is_short};

use header::Command;
use serial::{Effect, Opening, Reply, Serial, Verdict};

#[derive(Clone, Copy, Debug, PartialEq, Eq)]
pub enum Kind {
    // 000, 5.4 and its RS-232 chapter.
    Serial,
    // 000, the display chapter.
    Video,
}

// The kind of a unit with this own code.
#[tactic(auto, unfolding(crate::specs::Kinds::kind_of))]
pub fn kind_of(own: u8) -> Kind
    ensures { result ≡ kind_of own }
{
    match own {
        30..=33 => Kind::Video,
        _ => Kind::Serial,
    }
}

// What a unit of a kind answers to a command with n bytes of data, of which these are stored: checks 1 to 11.
pub fn verdict_of(kind: Kind, s: Serial, c: Command, n: usize, data: &[u8]) -> Verdict
    ensures { result ≡ verdict_of kind s c n «data».now }
{
    match c.command {
        0xFE => serial::says(Reply::Silent, Effect::Keeps),
        0xFF => serial::says(Reply::Silent, reset_of(kind, s)),
        _ if c.device == 0 => serial::says(Reply::Silent, Effect::Keeps),
        _ => checks_of(kind, s, c, n, data),
    }
}

// Whether a unit of a kind that is so open is fed.
pub fn is_fed(kind: Kind, opening: Opening) -> bool
    ensures { result ≡ is_fed kind opening }
{
    match kind {
        Kind::Serial => rs232::takes_bytes(opening),
        Kind::Video => false,
    }
}

// How many bytes a unit of a kind is lent for what is written to it.
pub fn lent_to(kind: Kind) -> usize
    ensures { result ≡ lent_to kind }
{
    match kind {
        // Its output queue.
        Kind::Serial => 256,
        // Its screen.
        Kind::Video => 1920,
    }
}

// Whether the memory that a step of such a unit is lent is too short: a command buffer of `room` bytes, or `lent` bytes for what is written to it.
pub fn is_short(kind: Kind, room: usize, lent: usize) -> bool
    ensures { result ≡ is_short kind room lent }
{
    room < 256 || lent < lent_to(kind)
}

fn checks_of(kind: Kind, s: Serial, c: Command, n: usize, data: &[u8]) -> Verdict
    ensures { result ≡ checks_of kind s c n «data».now }
{
    match kind {
        Kind::Serial => rs232::check(s, c, n, data),
        Kind::Video => video::check(s, c, n, data),
    }
}

fn reset_of(kind: Kind, s: Serial) -> Effect
    ensures { result ≡ reset_of kind s }
{
    match kind {
        Kind::Serial => Effect::Resets,
        Kind::Video => video::reset(s.opening),
    }
}

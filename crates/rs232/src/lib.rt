// What a serial unit answers to a whole command: checks 3 to 11 give the response and the effect.

#![tactic(auto)]

ghost use Rattle.std.specs.Prelude.{◌≡◌, cond, [], get_or};
ghost use Rattle.serial.specs.Verdict.{says, status};
ghost use Rattle.rs232.specs.Checks.{mode_of, accepted_of, requested_in, attributes_in, open_status, open_by, read_length, read_by, write_by, opened_by, closed_by, command_by, supported, checked, takes_bytes};

use header::Command;
use serial::{Effect, Mode, Opening, Reply, Serial, Verdict};

// Checks 3 to 11 on a command with n bytes of data, of which these are stored.
pub fn check(s: Serial, c: Command, n: usize, data: &[u8]) -> Verdict
    ensures { result ≡ checked s c n «data».now }
{
    if is_supported(c.command) {
        if 256 < n {
            return serial::status(0x08);
        }
        return by_command(s, c, n, data);
    }
    serial::status(0x0D)
}

// Whether a unit that is so open takes bytes of its host: for input or update.
pub fn takes_bytes(opening: Opening) -> bool
    ensures { result ≡ takes_bytes opening }
{
    match opening {
        Opening::Closed | Opening::OpenFor(Mode::Output, _) => false,
        Opening::OpenFor(Mode::Input | Mode::Update, _) => true,
    }
}

// What an open's data asks for: the length, and the attributes.
pub fn requested(data: &[u8]) -> u16
    ensures { result ≡ requested_in «data».now }
{
    field::value_of(at(data, 0), at(data, 1))
}

pub fn attributes(data: &[u8]) -> u8
    ensures { result ≡ attributes_in «data».now }
{
    at(data, 2)
}

// Whether an open with n bytes of data is accepted by a closed unit of any kind, else the status that refuses it. `refused` is the status of a
// mode that the kind does not open for.
pub fn open_status(
    refused: Option<u8>,
    buffer: u16,
    n: usize,
    requested: u16,
    attributes: u8,
) -> Result<(), u8>
    ensures { result ≡ open_status refused buffer n requested attributes }
{
    if n < 3 {
        return Err(0x02);
    }
    if attributes / 64 == 0 {
        return Err(0x13);
    }
    if let Some(status) = refused {
        return Err(status);
    }
    if attributes / 32 % 2 == 1 {
        return Err(0x11);
    }
    if 128 < requested || buffer < 4 {
        return Err(0x0C);
    }
    if 3 < n {
        return Err(0x01);
    }
    Ok(())
}

// The mode that attributes ask for, if not append.
pub fn mode_of(attributes: u8) -> Mode
    ensures { result ≡ mode_of attributes }
{
    match attributes / 64 {
        1 => Mode::Input,
        2 => Mode::Output,
        _ => Mode::Update,
    }
}

// The length that is accepted where this is requested.
pub fn accepted_of(requested: u8) -> u8
    ensures { result ≡ accepted_of requested }
{
    match requested {
        0 => 128,
        _ => requested,
    }
}

// How many bytes a read answers, where there are so many.
pub fn read_length(n: usize, buffer: u16, accepted: u8) -> u16
    ensures { result ≡ read_length n buffer accepted }
{
    n.min(usize::from(buffer)).min(usize::from(accepted)) as u16
}

fn is_supported(code: u8) -> bool
    ensures { result ≡ supported code }
{
    matches!(code, 0x00 | 0x01 | 0x03 | 0x04 | 0x08 | 0x09 | 0x0A)
}

fn by_command(s: Serial, c: Command, n: usize, data: &[u8]) -> Verdict
    ensures { result ≡ command_by s.opening s c n «data».now }
{
    match s.opening {
        Opening::Closed => by_closed(s, c, n, data),
        Opening::OpenFor(m, accepted) => by_open(s, c, n, m, accepted),
    }
}

fn by_closed(s: Serial, c: Command, n: usize, data: &[u8]) -> Verdict
    ensures { result ≡ closed_by s c n «data».now }
{
    match c.command {
        0x00 => open(c.buffer_length, n, requested(data), attributes(data)),
        0x0A => serial::poll(s),
        _ => serial::status(0x04),
    }
}

fn by_open(s: Serial, c: Command, n: usize, m: Mode, accepted: u8) -> Verdict
    ensures { result ≡ command_by (Opening.OpenFor m accepted) s c n [] }
{
    match c.command {
        0x00 => serial::status(0x05),
        0x0A => serial::poll(s),
        0x01 => serial::says(Reply::Status(0x00), Effect::Closes),
        0x03 => read(m, accepted, c.buffer_length, s.input.len()),
        0x04 => write(m, n, s.output.room()),
        0x08 => serial::says(Reply::Status(0x00), Effect::Enables),
        _ => serial::says(Reply::Status(0x00), Effect::Disables),
    }
}

fn open(buffer: u16, n: usize, requested: u16, attributes: u8) -> Verdict
    ensures { result ≡ open_by buffer n requested attributes }
{
    match open_status(None, buffer, n, requested, attributes) {
        Ok(()) => {
            let accepted = accepted_of(requested as u8);
            serial::says(
                Reply::Opened(accepted),
                Effect::Opens(mode_of(attributes), accepted),
            )
        }
        Err(number) => serial::status(number),
    }
}

fn read(m: Mode, accepted: u8, buffer: u16, queued: usize) -> Verdict
    ensures { result ≡ read_by m accepted buffer queued }
{
    match m {
        Mode::Input | Mode::Update => serial::says(
            Reply::Bytes(read_length(queued, buffer, accepted)),
            Effect::Keeps,
        ),
        Mode::Output => serial::status(0x0F),
    }
}

fn write(m: Mode, n: usize, room: usize) -> Verdict
    ensures { result ≡ write_by m n room }
{
    match m {
        Mode::Input => serial::status(0x0E),
        Mode::Output | Mode::Update => store(room < n),
    }
}

fn store(full: bool) -> Verdict
    ensures { result ≡ cond full (status 8) (says (Reply.Status 0) Effect.Stores) }
{
    if full {
        return serial::status(0x08);
    }
    serial::says(Reply::Status(0x00), Effect::Stores)
}

fn at(data: &[u8], i: usize) -> u8
    ensures { result ≡ get_or «data».now i 0 }
{
    data.get(i).copied().unwrap_or(0)
}

// What a video unit answers to a whole command: checks 3 to 11 give the response and the effect.

#![tactic(auto)]

ghost use Rattle.std.specs.Prelude.{◌≡◌};
ghost use Rattle.video.specs.Checks.{refused_mode, open_by, address_by, read_by, write_by, opened_by, closed_by, command_by, supported, checked, reset_by};

use header::Command;
use screen::Screen;
use serial::{Effect, Mode, Opening, Reply, Serial, Verdict};

// Checks 3 to 11 on a command with n bytes of data, of which these are stored. The functions below are named as those of `rs232`, which are called
// where the two kinds are alike; a trait of both would have a member for each of the others, as what they look at and answer differs.
pub fn check(s: Serial, c: Command, n: usize, data: &[u8]) -> Verdict
    ensures { result ≡ checked s c n «data».now }
{
    if is_supported(c.command) {
        if 256 < n {
            return serial::status(0x08);
        }
        if c.command == 0x0A {
            return serial::status(0x0A);
        }
        return by_command(s.opening, s.screen, c, n, data);
    }
    serial::status(0x0D)
}

// What a bus reset does to a unit that is so open.
pub fn reset(opening: Opening) -> Effect
    ensures { result ≡ reset_by opening }
{
    match opening {
        Opening::Closed => Effect::Keeps,
        Opening::OpenFor(_, _) => Effect::ResetsScreen,
    }
}

fn is_supported(code: u8) -> bool
    ensures { result ≡ supported code }
{
    matches!(code, 0x00 | 0x01 | 0x03 | 0x04 | 0x0A)
}

fn by_command(opening: Opening, s: Screen, c: Command, n: usize, data: &[u8]) -> Verdict
    ensures { result ≡ command_by opening s c n «data».now }
{
    match opening {
        Opening::Closed => by_closed(c, n, data),
        Opening::OpenFor(m, accepted) => by_open(m, accepted, s, c),
    }
}

fn by_closed(c: Command, n: usize, data: &[u8]) -> Verdict
    ensures { result ≡ closed_by c n «data».now }
{
    match c.command {
        0x00 => open(
            c.buffer_length,
            n,
            rs232::requested(data),
            rs232::attributes(data),
        ),
        _ => serial::status(0x04),
    }
}

fn by_open(m: Mode, accepted: u8, s: Screen, c: Command) -> Verdict
    ensures { result ≡ opened_by m accepted s c }
{
    match c.command {
        0x00 => serial::status(0x05),
        0x01 => serial::says(Reply::Status(0x00), Effect::Closes),
        0x03 => read(m, s, accepted, c.buffer_length),
        _ => write(m),
    }
}

fn open(buffer: u16, n: usize, requested: u16, attributes: u8) -> Verdict
    ensures { result ≡ open_by buffer n requested attributes }
{
    match rs232::open_status(refused_mode(attributes), buffer, n, requested, attributes) {
        Ok(()) => {
            let accepted = rs232::accepted_of(requested as u8);
            serial::says(
                Reply::Opened(accepted),
                Effect::OpensScreen(rs232::mode_of(attributes), accepted),
            )
        }
        Err(number) => serial::status(number),
    }
}

fn refused_mode(attributes: u8) -> Option<u8>
    ensures { result ≡ refused_mode attributes }
{
    match attributes / 64 {
        1 => Some(0x15),
        _ => None,
    }
}

fn read(m: Mode, s: Screen, accepted: u8, buffer: u16) -> Verdict
    ensures { result ≡ read_by m s accepted buffer }
{
    match m {
        Mode::Input | Mode::Update => address(s, accepted, buffer),
        Mode::Output => serial::status(0x0F),
    }
}

// The cursor's row and column, where they are asked for.
fn address(s: Screen, accepted: u8, buffer: u16) -> Verdict
    ensures { result ≡ address_by s accepted buffer }
{
    if s.asked {
        let n = rs232::read_length(2, buffer, accepted);
        return serial::says(Reply::Address(n as u8, s.row, s.column), Effect::Keeps);
    }
    serial::status(0x00)
}

fn write(m: Mode) -> Verdict
    ensures { result ≡ write_by m }
{
    match m {
        Mode::Input => serial::status(0x0E),
        Mode::Output | Mode::Update => serial::says(Reply::Status(0x00), Effect::Shows),
    }
}

// The command message: device code 1, command code 1, logical unit 1, record number 2, buffer length 2, data length 2,
// then the data. A trait of command and response is no plainer: what is the same stands in `reader`, `writer` and `place`, and what is
// left are calls of those, a line or two each, with other fields.

#![tactic(auto)]

ghost use Rattle.std.specs.Prelude.{◌≡◌, [], ◌≤◌, length};
ghost use Rattle.message.specs.Format.{command_format, head_of, bytes_of, least};
ghost use Rattle.message.specs.Reading.{reading, data_in};
ghost use Rattle.message.specs.Writing.{writing, written_as};
ghost use Rattle.writer.specs.Numbers.{numbered as writer·numbered};
ghost use Rattle.message.specs.Nibbles.{nibble_in};
ghost use Rattle.place.specs.Place.{place_in};
ghost use Rattle.header.specs.Header.{fields_of, header_in};
ghost use Rattle.command.specs.Command.{message_of, numbered};

use header::{Command, Header};
use place::Place;
use reader::Misread;
use writer::WriteError;

// Reads a slice that must hold exactly one command: its fields. `data_of` hands back the data.
pub fn read(s: &[u8]) -> Result<Command, Misread>
    ensures { numbered (data_in command_format s.now) result ≡ reading command_format s.now }
{
    reader::check(s, 7, 0)?;
    Ok(header_in(s).command)
}

// The data field of the command that a slice holds, as that part of the slice; nothing where `read` refuses.
pub fn data_of(s: &[u8]) -> &[u8]
    ensures { result.now ≡ data_in command_format s.now }
{
    reader::data_of(s, 7, 0)
}

// Writes a command with its data to the front of a lent buffer. Bytes past it keep their values, and all do where it refuses.
pub fn write(c: Command, data: &[u8], out: &mut [u8]) -> Result<usize, WriteError>
    ensures { (writer·numbered result ≡ writing (least command_format) (length «data».now) (length out.old)) × (out.new ≡ written_as command_format (message_of c «data».now) out.old) }
{
    let head = header::bytes_of(c, data.len());
    writer::write(&head, data, &[], out)
}

// What stands at byte i of a command with n bytes of data.
pub fn place(c: Command, n: usize, i: usize) -> Place
    ensures { result ≡ place_in (head_of command_format (fields_of c) n) n [] i }
{
    let head = header::bytes_of(c, n);
    place::find(&head, n, &[], i)
}

// Nibble i of a command with its data; past its end 15.
pub fn nibble(c: Command, data: &[u8], i: usize) -> u8
    ensures { result ≡ nibble_in (bytes_of command_format (message_of c «data».now)) i }
{
    let head = header::bytes_of(c, data.len());
    place::nibble(&head, data, &[], i)
}

fn header_in(s: &[u8]) -> Header
    requires { 9 ≤ length s.now }
    ensures { result ≡ header_in s.now }
{
    Header {
        command: Command {
            device: s[0],
            command: s[1],
            logical_unit: s[2],
            record_number: field::value_of(s[3], s[4]),
            buffer_length: field::value_of(s[5], s[6]),
        },
        data_length: field::value_of(s[7], s[8]),
    }
}

// The response message: data length 2, the data, status 1. `command` says why there is no trait of both.

#![tactic(auto)]

ghost use Rattle.std.specs.Prelude.{◌≡◌, [], ◌∷◌, length};
ghost use Rattle.message.specs.Format.{response_format, head_of, end_of, bytes_of, least};
ghost use Rattle.message.specs.Reading.{reading, data_in};
ghost use Rattle.message.specs.Writing.{writing, written_as};
ghost use Rattle.writer.specs.Numbers.{numbered as writer·numbered};
ghost use Rattle.message.specs.Nibbles.{nibble_in};
ghost use Rattle.place.specs.Place.{place_in};
ghost use Rattle.response.specs.Response.{message_of, numbered};

use place::Place;
use reader::Misread;
use writer::WriteError;

// Reads a slice that must hold exactly one response: its status. `data_of` hands back the data.
pub fn read(s: &[u8]) -> Result<u8, Misread>
    ensures { numbered (data_in response_format s.now) result ≡ reading response_format s.now }
{
    let n = reader::check(s, 0, 1)?;
    Ok(s[2 + n])
}

// The data field of the response that a slice holds, as that part of the slice; nothing where `read` refuses.
pub fn data_of(s: &[u8]) -> &[u8]
    ensures { result.now ≡ data_in response_format s.now }
{
    reader::data_of(s, 0, 1)
}

// Writes a response with its data to the front of a lent buffer. Bytes past it keep their values, and all do where it refuses.
pub fn write(data: &[u8], status: u8, out: &mut [u8]) -> Result<usize, WriteError>
    ensures { (writer·numbered result ≡ writing (least response_format) (length «data».now) (length out.old)) × (out.new ≡ written_as response_format (message_of «data».now status) out.old) }
{
    let head = head_of(data.len());
    writer::write(&head, data, &[status], out)
}

// What stands at byte i of a response with n bytes of data.
pub fn place(n: usize, status: u8, i: usize) -> Place
    ensures { result ≡ place_in (head_of response_format [] n) n (end_of response_format (status ∷ [])) i }
{
    let head = head_of(n);
    place::find(&head, n, &[status], i)
}

// Nibble i of a response with its data; past its end 15.
pub fn nibble(data: &[u8], status: u8, i: usize) -> u8
    ensures { result ≡ nibble_in (bytes_of response_format (message_of «data».now status)) i }
{
    let head = head_of(data.len());
    place::nibble(&head, data, &[status], i)
}

fn head_of(n: usize) -> [u8; 2]
    ensures { result ≡ head_of response_format [] n }
{
    let [low, high, ..] = n.to_le_bytes();
    [low, high]
}

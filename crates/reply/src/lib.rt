// The nibbles of a unit's response, from its reply and its input queue.

#![tactic(auto)]

ghost use Rattle.std.specs.Prelude.{◌≡◌, [], ◌∷◌, ◌++◌, ◌≤◌, get_or, take};
ghost use Rattle.field.specs.Field.{field};
ghost use Rattle.message.specs.Nibbles.{nibble_in};
ghost use Rattle.place.specs.Place.{byte_at};
ghost use Rattle.queue.specs.Queue.{contents};
ghost use Rattle.reply.specs.Reply.{is_silent, reply_data, reply_length, reply_status, response_bytes, last_nibble};

use place::Place;
use queue::Queue;
use serial::Reply;

// Whether a reply is no response at all.
pub fn is_silent(r: Reply) -> bool
    ensures { result ≡ is_silent r }
{
    matches!(r, Reply::Silent)
}

// Nibble i of the response; 15 past its end.
pub fn nibble(r: Reply, q: Queue, input: &[u8; 256], i: usize) -> u8
    ensures { result ≡ nibble_in (response_bytes (contents input.now q) r) i }
{
    let p = response::place(length_of(r, q), status_of(r), i / 2);
    field::nibble(byte_of(p, r, q, input), i)
}

// The number of its last nibble, from 0.
pub fn last(r: Reply, q: Queue) -> usize
    ensures { result ≡ last_nibble q r }
{
    5 + 2 * length_of(r, q)
}

fn length_of(r: Reply, q: Queue) -> usize
    ensures { (result ≡ reply_length q r) × (result ≤ 256) }
{
    match r {
        Reply::Silent | Reply::Status(_) | Reply::Polled => 0,
        Reply::Opened(_) => 4,
        Reply::Bytes(n) => usize::from(n).min(q.len()),
        Reply::Address(n, _, _) => usize::from(n).min(2),
    }
}

fn status_of(r: Reply) -> u8
    ensures { result ≡ reply_status r }
{
    match r {
        Reply::Silent => 0xFF,
        Reply::Status(number) => number,
        Reply::Opened(_) | Reply::Bytes(_) | Reply::Address(_, _, _) | Reply::Polled => 0x00,
    }
}

// The byte at a place of the response.
fn byte_of(p: Place, r: Reply, q: Queue, input: &[u8; 256]) -> u8
    ensures { result ≡ byte_at (reply_data (contents input.now q) r) p }
{
    match p {
        Place::Field(b) => b,
        Place::Item(j) => item(r, q, input, j),
        Place::Past => 255,
    }
}

// Byte j of the response's data; 255 past it.
fn item(r: Reply, q: Queue, input: &[u8; 256], j: usize) -> u8
    ensures { result ≡ get_or (reply_data (contents input.now q) r) j 255 }
{
    match r {
        Reply::Silent | Reply::Status(_) | Reply::Polled => 255,
        Reply::Opened(accepted) => opened_item(accepted, j),
        Reply::Bytes(n) => queued_item(n, q, input, j),
        Reply::Address(n, row, column) => address_item(n, row, column, j),
    }
}

fn opened_item(accepted: u8, j: usize) -> u8
    ensures { result ≡ get_or (field 2 accepted ++ field 2 0) j 255 }
{
    if j == 0 {
        return accepted;
    }
    if j < 4 {
        return 0;
    }
    255
}

fn queued_item(n: u16, q: Queue, input: &[u8; 256], j: usize) -> u8
    ensures { result ≡ get_or (take n (contents input.now q)) j 255 }
{
    let most = usize::from(n).min(q.len());
    if j < most {
        return q.at(input, j);
    }
    255
}

fn address_item(n: u8, row: u8, column: u8, j: usize) -> u8
    ensures { result ≡ get_or (take n (row ∷ column ∷ [])) j 255 }
{
    let size = usize::from(n).min(2);
    if j < size {
        if j == 1 {
            return column;
        }
        return row;
    }
    255
}

// What stands at each byte and nibble of a message, of any format, that is described by its fields and data. A struct of head, data and
// end is no plainer: `find` takes the length of the data alone.

#![tactic(auto)]

ghost use Rattle.std.specs.Prelude.{◌≡◌, ◌++◌};
ghost use Rattle.message.specs.Nibbles.{nibble_in};
ghost use Rattle.place.specs.Place.{place_in, byte_at};

// What stands at a byte of a message.
#[derive(Clone, Copy, Debug, PartialEq, Eq)]
pub enum Place {
    // This byte of a field.
    Field(u8),
    // The data byte with this number, from 0.
    Item(usize),
    // Nothing: the message has ended.
    Past,
}

// What stands at byte i of a message with this head, n bytes of data and this end.
pub fn find(head: &[u8], n: usize, end: &[u8], i: usize) -> Place
    ensures { result ≡ place_in head.now n end.now i }
{
    if let Some(b) = head.get(i) {
        return Place::Field(*b);
    }
    let j = i - head.len();
    if j < n {
        return Place::Item(j);
    }
    match end.get(j - n) {
        Some(b) => Place::Field(*b),
        None => Place::Past,
    }
}

// Nibble i of a message with this head, data and end; past its end 15, as on released lines.
pub fn nibble(head: &[u8], data: &[u8], end: &[u8], i: usize) -> u8
    ensures { result ≡ nibble_in (head.now ++ («data».now ++ end.now)) i }
{
    let p = find(head, data.len(), end, i / 2);
    field::nibble(byte(p, data), i)
}

// The byte at a place of a message with this data; past its end 255, as on released lines.
pub fn byte(p: Place, data: &[u8]) -> u8
    ensures { result ≡ byte_at «data».now p }
{
    match p {
        Place::Field(b) => b,
        Place::Item(j) => data.get(j).copied().unwrap_or(255),
        Place::Past => 255,
    }
}

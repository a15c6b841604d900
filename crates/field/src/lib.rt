// Fields and nibbles: two-byte fields go low byte first, each byte as two nibbles, low first.

#![tactic(auto)]

ghost use Rattle.std.specs.Prelude.{◌≡◌, [], ◌∷◌, ◌%◌, get_or, set};
ghost use Rattle.field.specs.Field.{field, value_of, nibble_of, byte_from};

// Byte i of a two-byte field: 0 is the low one, 1 the high one, and so on in turn.
pub fn byte(n: u16, i: usize) -> u8
    ensures { result ≡ get_or (field 2 n) (i % 2) 0 }
{
    let [low, high] = n.to_le_bytes();
    if i % 2 == 0 { low } else { high }
}

// The two-byte field of two bytes.
pub fn value_of(low: u8, high: u8) -> u16
    ensures { result ≡ value_of (low ∷ high ∷ []) }
{
    u16::from_le_bytes([low, high])
}

// A two-byte field with b as its byte i.
pub fn with_byte(n: u16, i: usize, b: u8) -> u16
    ensures { result ≡ value_of (set (field 2 n) (i % 2) b) }
{
    if i % 2 == 0 {
        value_of(b, byte(n, 1))
    } else {
        value_of(byte(n, 0), b)
    }
}

// Nibble i of a byte: 0 is the low one, 1 the high one, and so on in turn.
pub fn nibble(b: u8, i: usize) -> u8
    ensures { result ≡ nibble_of b i }
{
    if i % 2 == 0 { b % 16 } else { b / 16 % 16 }
}

// The byte of two nibbles. Of a number over 15 the lowest four bits count.
pub fn byte_of(low: u8, high: u8) -> u8
    ensures { result ≡ byte_from low high }
{
    low % 16 + 16 * (high % 16)
}

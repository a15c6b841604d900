// The bytes that words stand for, behind each other in lent memory.
use crate::value;
use statement::MOST;

// The most bytes of the entries of a ring: sixteen entries.
pub const RING: usize = 32;

// An entry of a ring behind n bytes: a code, a marked one with a star, comes to two bytes, its code and its mark. How many bytes there are
// then; none where the word is none, or seventeen stand before it.
pub fn entry(bytes: &mut [u8; MOST], n: usize, word: &[u8], pass: Option<u64>) -> Option<usize> {
    let (code, mark) = word::cut(word, b'*');
    let code = value::within(code, pass, 0, 255)?;
    if RING < n {
        return None;
    }
    let end = put(bytes, n, code, 1, false)?;
    put(bytes, end, mark.is_some() as u64, 1, false)
}

// The bytes of a word behind n others: a byte in hexadecimal, perhaps with a star and how often it stands, or a plus and how many count up
// from it, or text in quotes. How many bytes there are then; none where the word stands for none, or has no room.
pub fn piece(bytes: &mut [u8; MOST], n: usize, word: &[u8], pass: Option<u64>) -> Option<usize> {
    if let Some(text) = word.strip_prefix(b"\"") {
        return put_text(bytes, n, text.strip_suffix(b"\"")?);
    }
    if value::is_pass(word) {
        return put(bytes, n, pass?, 1, false);
    }
    let (byte, many, counts) = match (word::cut(word, b'*'), word::cut(word, b'+')) {
        ((byte, Some(many)), _) => (byte, word::decimal(many)?, false),
        (_, (byte, Some(many))) => (byte, word::decimal(many)?, true),
        _ => (word, 1, false),
    };
    put(bytes, n, u64::from(word::byte(byte)?), many, counts)
}

fn put_text(bytes: &mut [u8; MOST], n: usize, text: &[u8]) -> Option<usize> {
    let end = n.saturating_add(text.len());
    for (b, letter) in bytes.get_mut(n..end)?.iter_mut().zip(text) {
        *b = *letter;
    }
    Some(end)
}

// A byte so often, or so many that count up from it, FA followed by 00.
fn put(bytes: &mut [u8; MOST], n: usize, first: u64, many: u64, counts: bool) -> Option<usize> {
    let end = n.saturating_add(many as usize);
    let mut next = (first % 256) as u8;
    for b in bytes.get_mut(n..end)? {
        *b = next;
        if counts {
            next = ((next as u16 + 1) % 251) as u8;
        }
    }
    Some(end)
}

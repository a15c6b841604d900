// The words of a line and the numbers and bytes that they stand for, and the words of a form.

#![tactic(auto)]

mod form;

ghost use Rattle.std.specs.Iterator.{at_most};
ghost use Rattle.std.specs.Prelude.{◌≡◌, ◌-◌, ◌<◌, ◌≤◌, ◌++◌, ◌∷◌, MatchOption, drop, length, take};

pub use form::{Kind, Lead, Optional, halves, is_name};

// The words of a line, each with what is behind it.
#[derive(Clone, Copy)]
pub struct Words<'a>(pub &'a [u8]);

// The first word of a line and what is behind it; no letters before the line's end or the sign of a comment. Text in quotes is one word.
pub fn next(line: &[u8]) -> (&[u8], &[u8])
    ensures shorter { 0 < length result.0.now → length result.1.now < length line.now }
{
    let line = past_blanks(line);
    let end = match line {
        [b'"', text @ ..] => text
            .iter()
            .position(|b| *b == b'"')
            .map(|n| n.saturating_add(2)),
        _ => line.iter().position(|b| is_blank(*b) | (*b == b'#')),
    };
    let n = end.unwrap_or(line.len());
    (front(line, n), behind(line, n))
}

// A line from its first word on, or from the comment that stands in its place.
pub fn past_blanks(line: &[u8]) -> &[u8]
    ensures { length result.now ≤ length line.now }
{
    let n = line.iter().position(|b| !is_blank(*b));
    behind(line, n.unwrap_or(line.len()))
}

fn is_blank(b: u8) -> bool {
    b <= b' '
}

// The letters from a place up to another; none where there is no such part.
pub fn part(s: &[u8], from: usize, to: usize) -> &[u8]
    ensures bound { length result.now ≤ to - from }
    ensures there { from ≤ to → to ≤ length s.now → result.now ≡ take (to - from) (drop from s.now) }
{
    s.get(from..to).unwrap_or(&[])
}

// The first n letters; all of them where there are no more.
pub fn front(s: &[u8], n: usize) -> &[u8]
    ensures { result.now ≡ take n s.now }
{
    s.get(..n).unwrap_or(s)
}

// The letters behind the first n.
pub fn behind(s: &[u8], n: usize) -> &[u8]
    ensures { result.now ≡ drop n s.now }
{
    s.get(n..).unwrap_or(&[])
}

// What stands before a sign, and what stands behind it, if the sign is there.
pub fn cut(s: &[u8], sign: u8) -> (&[u8], Option<&[u8]>)
    ensures { MatchOption result.1 (result.0.now ≡ s.now) (λ rest. s.now ≡ result.0.now ++ (sign ∷ rest.now)) }
{
    match s.iter().position(|b| *b == sign) {
        Some(n) => (front(s, n), Some(behind(s, n.saturating_add(1)))),
        None => (s, None),
    }
}

// A decimal number of one to nine digits.
pub fn decimal(w: &[u8]) -> Option<u64> {
    number(w, 10, 9)
}

// A byte of one or two hexadecimal digits.
pub fn byte(w: &[u8]) -> Option<u8> {
    u8::try_from(number(w, 16, 2)?).ok()
}

// A command's code in hexadecimal, or the name of one.
pub fn command(w: &[u8]) -> Option<u8> {
    match w {
        b"open" => Some(0x00),
        b"close" => Some(0x01),
        b"read" => Some(0x03),
        b"write" => Some(0x04),
        b"enable" => Some(0x08),
        b"disable" => Some(0x09),
        b"null" => Some(0xFE),
        b"reset" => Some(0xFF),
        _ => byte(w),
    }
}

// A number of so many digits at most.
fn number(w: &[u8], base: u32, most: usize) -> Option<u64>
    requires from_two { 2 ≤ base }
    requires to_z { base ≤ 36 }
{
    if w.is_empty() | (most < w.len()) {
        return None;
    }
    let mut value = 0u64;
    for b in w {
        let digit = char::from(*b).to_digit(base)?;
        value = value % 4294967296 * u64::from(base) + u64::from(digit);
    }
    Some(value)
}

impl<'a> Iterator for Words<'a> {
    type Item = (&'a [u8], &'a [u8]);

    ghost remaining = { λ words. at_most (length words.0.now) };

    fn next(&mut self) -> Option<(&'a [u8], &'a [u8])> {
        let (word, rest) = next(self.0);
        if word.is_empty() {
            return None;
        }
        self.0 = rest;
        Some((word, rest))
    }
}

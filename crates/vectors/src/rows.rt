// Messages as nibbles, and the class of each device code.
use crate::messages::Message;
use page::STDOUT;
use std::ops::Range;

// The first nibbles of a message.
pub fn nibbles(m: Message, data: &[u8], n: usize) {
    for i in 0..n {
        number(i, m.nibble(data, i));
    }
    page::say(STDOUT, b"\n");
}

pub fn classes() {
    for code in 0..=255u8 {
        number(usize::from(code), device::class_of(code));
    }
    page::say(STDOUT, b"\n");
}

// A number in rows of sixteen, each behind the place of its first.
fn number(i: usize, number: u8) {
    if i % 16 == 0 {
        page::tell(STDOUT, format_args!("\n  from {i}:"));
    }
    page::tell(STDOUT, format_args!(" {number}"));
}

// Nibbles of a message, each behind its place.
pub fn each(m: Message, data: &[u8], places: Range<usize>) {
    for i in places {
        let nibble = m.nibble(data, i);
        page::tell(STDOUT, format_args!("\n  nibble {i}: {nibble}"));
    }
    page::say(STDOUT, b"\n");
}

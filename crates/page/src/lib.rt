// Text that programs write. What is said goes to a descriptor at once, in one piece; what would go past the end of a page is left out.

#![tactic(auto)]

mod names;
mod sheet;

pub use names::{Command, Round, Status};
pub use sheet::Page;
use std::fmt;

// Where text goes: a descriptor, or nowhere.
pub type Out = Option<i32>;

// What a program says, and what it says is wrong.
pub const STDOUT: Out = Some(1);

pub const STDERR: Out = Some(2);

// Words as they are.
pub fn say(out: Out, words: &[u8]) -> bool {
    match out {
        Some(file) => io::write_all(file, words),
        None => true,
    }
}

// Words with values among them.
pub fn tell(out: Out, words: impl fmt::Display + Drop) {
    if out.is_some() {
        let mut page = Page::new();
        page.tell(words);
        page.write(out);
    }
}

// Words that a person wrote, as many as stand on a page: a control byte is shown as a dot.
pub fn show(out: Out, words: &[u8]) {
    if out.is_some() {
        let mut page = Page::new();
        page.show(words);
        page.write(out);
    }
}

// Each byte in hexadecimal, with a space before it; as many as stand on a page.
pub fn bytes(out: Out, s: &[u8]) {
    if out.is_some() {
        let mut page = Page::new();
        page.bytes(s);
        page.write(out);
    }
}

// Whether a byte is a letter of ASCII, a sign or a blank.
pub fn is_letter(b: u8) -> bool {
    (b' '..127).contains(&b)
}

// The last hexadecimal digit of n, upper case as in the papers.
pub fn digit(n: u8) -> u8 {
    match n % 16 {
        d @ 0..=9 => b'0' + d,
        d => b'A' + (d - 10),
    }
}

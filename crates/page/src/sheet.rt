// A page of letters.
ghost use Rattle.std.specs.Prelude.{◌≤◌};

use crate::Out;
use std::fmt;
use std::fmt::Write;

// Letters that are put together piece by piece before they are written. What would go past the end is left out.
#[derive(Drop)]
pub struct Page {
    letters: [u8; 8192],
    n: usize,
    ghost within: { n ≤ 8192 },
}

impl Page {
    // A page on which nothing stands.
    pub fn new() -> Page {
        Page {
            letters: [0; 8192],
            n: 0,
        }
    }

    // What stands on it.
    pub fn letters(&self) -> &[u8] {
        &self.letters[..self.n]
    }

    // Writes it; whether all of it was taken.
    pub fn write(&self, out: Out) -> bool {
        crate::say(out, self.letters())
    }

    pub fn letter(&mut self, b: u8) {
        if self.n < 8192 {
            self.letters[self.n] = b;
            self.n += 1;
        }
    }

    pub fn words(&mut self, s: &[u8]) {
        for b in s {
            self.letter(*b);
        }
    }

    // Words with values among them.
    pub fn tell(&mut self, words: impl fmt::Display + Drop) {
        // A page takes all that it is given.
        let _ = write!(self, "{words}");
    }

    // Words that a person wrote: a control byte is shown as a dot.
    pub fn show(&mut self, s: &[u8]) {
        for b in s {
            let is_control = (*b < b' ') | (*b == 127);
            self.letter(if is_control { b'.' } else { *b });
        }
    }

    // Each byte in hexadecimal, with a space before it.
    pub fn bytes(&mut self, s: &[u8]) {
        for b in s {
            self.byte(*b);
        }
    }

    fn byte(&mut self, b: u8) {
        self.letter(b' ');
        self.letter(crate::digit(b / 16));
        self.letter(crate::digit(b));
    }

    // The same as a script has them: letters as text in quotes, each other byte in hexadecimal.
    pub fn quoted(&mut self, s: &[u8]) {
        let mut was_text = false;
        for b in s {
            let is_text = crate::is_letter(*b) & (*b != b'"');
            if was_text & !is_text {
                self.letter(b'"');
            }
            if !is_text {
                self.byte(*b);
            } else {
                if !was_text {
                    self.words(b" \"");
                }
                self.letter(*b);
            }
            was_text = is_text;
        }
        if was_text {
            self.letter(b'"');
        }
    }
}

impl Write for Page {
    fn write_str(&mut self, s: &str) -> fmt::Result {
        self.words(s.as_bytes());
        Ok(())
    }
}

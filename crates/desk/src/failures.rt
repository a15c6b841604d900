// The failures of all scripts.
ghost use Rattle.std.specs.Prelude.{◌≤◌};

// Words of failures, which are said once more at the end: as many letters as there is room for, since there is no heap.
#[derive(Drop)]
pub struct Failures {
    letters: [u8; 16384],
    n: usize,
    ghost within: { n ≤ 16384 },
}

impl Failures {
    // None yet.
    pub fn new() -> Failures {
        Failures {
            letters: [0; 16384],
            n: 0,
        }
    }

    // The words of one more.
    pub(crate) fn keep(&mut self, words: &[u8]) {
        let room = &mut self.letters[self.n..];
        let n = words.len().min(room.len());
        room[..n].copy_from_slice(&words[..n]);
        self.n += n;
    }

    // The words of all of them.
    pub(crate) fn words(&self) -> &[u8] {
        &self.letters[..self.n]
    }
}

// Codes of parties by their place.
ghost use Rattle.std.specs.Prelude.{◌≡◌, ◌≤◌, ◌<◌, ⊤, length, IfSome};

use std::alloc::AllocError;

// The codes of up to N parties. There is no heap, so they are counted.
pub struct Codes<T, const N: usize> {
    codes: [T; N],
    count: usize,
    ghost within: { count ≤ N },
}

impl<T: Copy, const N: usize> Clone for Codes<T, N> {
    ghost is_clone = { λ codes copy. copy ≡ codes };

    ghost is_infallible = { λ _. ⊤ };

    fn clone(&self) -> Result<Codes<T, N>, AllocError> {
        Ok(*self)
    }
}

impl<T: Copy, const N: usize> Copy for Codes<T, N> {}

impl<T: Copy + Eq + Drop, const N: usize> Codes<T, N> {
    // None yet. In the places that are left stands a code that is never seen.
    pub(crate) fn new(unseen: T) -> Codes<T, N> {
        Codes {
            codes: [unseen; N],
            count: 0,
        }
    }

    // One more behind the others, if there is a place.
    pub(crate) fn add(&mut self, code: T) {
        if self.count < N {
            self.codes[self.count] = code;
            self.count += 1;
        }
    }

    // How many there are.
    pub fn len(&self) -> usize
        ensures { result ≤ N }
    {
        self.all().len()
    }

    pub fn all(&self) -> &[T]
        ensures { length result.now ≤ N }
    {
        &self.codes[..self.count]
    }

    // Where the party with a code stands.
    pub fn place_of(&self, code: T) -> Option<usize>
        ensures { IfSome result (λ i. i < N) }
    {
        self.all().iter().position(|own| *own == code)
    }
}

// The values of a statement.
ghost use Rattle.std.specs.Prelude.{◌≡◌, ◌<◌, ◌≤◌, IfSome, None, Some, false, if◌then◌else◌, replicate, set, slice_get};
ghost use Rattle.statement.specs.declared.values.Value.TheVariants.{Number};

// A number, or one of the words between which bars stand in a form, by its place from 0. A name without a value has the number 1.
#[derive(Clone, Copy, Debug, PartialEq, Eq)]
pub enum Value {
    Number(u64),
    Word(u64),
}

// The values in the order of the form, none for what was not given; or those that were found, in the same places.
#[derive(Clone, Copy, Debug, PartialEq, Eq)]
pub struct Values(pub [Option<Value>; 13]);

impl Values {
    // None was given or found.
    pub fn none() -> Values
        ensures { result.0 ≡ replicate 13 None }
    {
        Values([None; 13])
    }

    pub fn at(&self, place: usize) -> Option<Value>
        ensures there { place < 13 → Some result ≡ slice_get self.now.0 place }
        ensures beyond { 13 ≤ place → result ≡ None }
    {
        self.0.get(place).copied().flatten()
    }

    // With a value at a place.
    pub fn set(&mut self, place: usize, value: Option<Value>)
        ensures { self.new.0 ≡ set self.old.0 place value }
    {
        if place < self.0.len() {
            self.0[place] = value;
        }
    }

    pub fn set_number(&mut self, place: usize, number: u64)
        ensures { self.new.0 ≡ set self.old.0 place (Some (Number number)) }
    {
        self.set(place, Some(Value::Number(number)));
    }

    // What is so has a value; what is not so has none.
    pub fn set_flag(&mut self, place: usize, so: bool)
        ensures { self.new.0 ≡ set self.old.0 place (if so then Some (Number 1) else None) }
    {
        self.set(place, so.then_some(Value::Number(1)));
    }

    // Whether there is a value at a place.
    pub fn has(&self, place: usize) -> bool
        ensures { 13 ≤ place → result ≡ false }
    {
        self.at(place).is_some()
    }

    // The number at a place.
    pub fn number(&self, place: usize) -> Option<u64>
        ensures { place < 13 → IfSome result (λ n. slice_get self.now.0 place ≡ Some (Some (Number n))) }
    {
        match self.at(place) {
            Some(Value::Number(n)) => Some(n),
            _ => None,
        }
    }

    pub fn number_or(&self, place: usize, other: u64) -> u64 {
        self.number(place).unwrap_or(other)
    }

    // The attributes of an open that has words for them.
    pub fn attributes(&self) -> Option<u8> {
        let mode = if self.has(6) {
            0x40
        } else if self.has(7) {
            0x80
        } else if self.has(8) {
            0xC0
        } else if self.has(9) {
            0x00
        } else {
            return None;
        };
        Some(if self.has(10) { mode | 0x20 } else { mode })
    }

    // How many bytes of a command's data come before those of the statement: length and attributes of an open that has words for them.
    pub fn front(&self) -> usize
        ensures { result ≤ 3 }
    {
        if self.attributes().is_some() { 3 } else { 0 }
    }
}

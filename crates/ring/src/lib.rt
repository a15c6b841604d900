// The polling ring: up to sixteen entries, each a device code and an unacknowledged mark, the front first.

#![tactic(auto)]

ghost use Rattle.std.specs.Prelude.{◌≡◌, [], ◌∷◌, ◌++◌, ◌≤◌, get_or, length, set};
ghost use Rattle.ring.specs.Ring.{none, counted, live, slots_from, ring_of, place_of, is_in, cut_at, joined, removed, turned, with_mark, is_marked};

#[derive(Clone, Copy)]
pub struct Entry {
    pub code: u8,
    pub marked: bool,
}

// The entries stand at the front of the array; the slots behind them hold code 0, unmarked. A count over 16 is that of a full ring.
#[derive(Clone, Copy)]
pub struct Ring {
    pub entries: [Entry; 16],
    pub count: u8,
}

impl Ring {
    // The ring that no unit has joined.
    pub fn new() -> Ring
        ensures { result ≡ ring_of [] }
    {
        let none = Entry {
            code: 0,
            marked: false,
        };
        Ring {
            entries: [none; 16],
            count: 0,
        }
    }

    // How many entries it has.
    pub fn len(self) -> usize
        ensures { result ≡ counted self }
    {
        let count = self.count;
        if count < 16 { count as usize } else { 16 }
    }

    // Entry i, the front being entry 0; past the last code 0, unmarked.
    pub fn entry(self, i: usize) -> Entry
        ensures { result ≡ get_or (live self) i none }
    {
        if i < self.len() {
            return self.entries[i];
        }
        Entry {
            code: 0,
            marked: false,
        }
    }

    // Where the first entry with a code stands; the number of entries where none has it.
    fn find(self, code: u8) -> usize
        ensures { result ≡ place_of code (live self) }
    {
        let n = self.len();
        let mut i = 0;
        while i < n {
            let e = self.entry(i);
            if e.code == code {
                return i;
            }
            i += 1;
        }
        n
    }

    // Whether a code is in it.
    pub fn has(self, code: u8) -> bool
        ensures { result ≡ is_in code (live self) }
    {
        self.find(code) < self.len()
    }

    // Whether a code is in it and marked.
    pub fn is_marked(self, code: u8) -> bool
        ensures { result ≡ is_marked code (live self) }
    {
        if self.has(code) {
            let e = self.entry(self.find(code));
            return e.marked;
        }
        false
    }

    // With a code at the back, unmarked, that was not in it. Code 0 never joins, and a full ring stays as it is.
    pub fn joined(self, code: u8) -> Ring
        ensures { result ≡ ring_of (joined code (live self)) }
    {
        let is_all = code == 0;
        if is_all {
            return self.normal();
        }
        if self.has(code) {
            return self.normal();
        }
        if self.len() < 16 {
            return self.moved(
                16,
                Entry {
                    code,
                    marked: false,
                },
            );
        }
        self.normal()
    }

    // Without a code; the gap is closed.
    pub fn removed(self, code: u8) -> Ring
        ensures { result ≡ ring_of (removed code (live self)) }
    {
        self.cut(self.find(code))
    }

    // With the front entry moved to the back.
    pub fn turned(self) -> Ring
        ensures { result ≡ ring_of (turned (live self)) }
    {
        if self.len() == 0 {
            return self.cut(0);
        }
        self.moved(0, self.entry(0))
    }

    // With a code's entry marked, or its mark cleared.
    pub fn with_mark(self, code: u8, marked: bool) -> Ring
        ensures { result ≡ ring_of (with_mark marked code (live self)) }
    {
        let at = self.find(code);
        let mut e = self.entry(at);
        e.marked = marked;
        self.put(at, e)
    }

    // As it is, the unused slots cleared.
    fn normal(self) -> Ring
        ensures { result ≡ ring_of (live self) }
    {
        self.cut(16)
    }

    // With another entry at a place that it has.
    fn put(self, at: usize, e: Entry) -> Ring
        ensures { result ≡ ring_of (set (live self) at e) }
    {
        let mut r = self.normal();
        if at < self.len() {
            r.entries[at] = e;
        }
        r
    }

    // Without the entry at a place.
    fn cut(self, at: usize) -> Ring
        ensures { result ≡ ring_of (cut_at at (live self)) }
    {
        let entries = self.moved_slots(
            at,
            Entry {
                code: 0,
                marked: false,
            },
        );
        Ring {
            entries,
            count: self.count_without(at),
        }
    }

    // Without the entry at a place, and with e at the back.
    fn moved(self, at: usize, e: Entry) -> Ring
        ensures { result ≡ ring_of (cut_at at (live self) ++ (e ∷ [])) }
    {
        let entries = self.moved_slots(at, e);
        Ring {
            entries,
            count: self.count_without(at) + 1,
        }
    }

    fn count_without(self, at: usize) -> u8
        ensures { (result ≡ length (cut_at at (live self))) × (result ≤ 16) }
    {
        let n = self.len();
        if at < n { (n - 1) as u8 } else { n as u8 }
    }

    fn moved_slots(self, at: usize, e: Entry) -> [Entry; 16]
        ensures { result ≡ slots_from 16 0 (cut_at at (live self) ++ (e ∷ [])) }
    {
        [
            self.slot(at, e, 0),
            self.slot(at, e, 1),
            self.slot(at, e, 2),
            self.slot(at, e, 3),
            self.slot(at, e, 4),
            self.slot(at, e, 5),
            self.slot(at, e, 6),
            self.slot(at, e, 7),
            self.slot(at, e, 8),
            self.slot(at, e, 9),
            self.slot(at, e, 10),
            self.slot(at, e, 11),
            self.slot(at, e, 12),
            self.slot(at, e, 13),
            self.slot(at, e, 14),
            self.slot(at, e, 15),
        ]
    }

    fn slot(self, at: usize, e: Entry, i: u8) -> Entry
        ensures { result ≡ get_or (cut_at at (live self) ++ (e ∷ [])) i none }
    {
        let n = self.count_without(at);
        if i < n {
            return self.slot_without(at, i as usize);
        }
        if i == n {
            return e;
        }
        Entry {
            code: 0,
            marked: false,
        }
    }

    fn slot_without(self, at: usize, i: usize) -> Entry
        ensures { result ≡ get_or (cut_at at (live self)) i none }
    {
        if i < at {
            return self.entry(i);
        }
        if i < 16 {
            return self.entry(i + 1);
        }
        Entry {
            code: 0,
            marked: false,
        }
    }
}

// A queue of up to 256 bytes. Its bytes stand in memory that the caller lends, a ring: the place after the last is the first.

#![tactic(auto)]

ghost use Rattle.std.specs.Prelude.{◌≡◌, [], ◌∷◌, ◌+◌, ◌%◌};
ghost use Rattle.queue.specs.Queue.{held, room, empty_queue, byte_at, queue_with, bytes_with, queue_without, popped};

// Where the oldest byte stands, and how many there are. A count over 256 is that of a full queue.
#[derive(Clone, Copy, Debug, PartialEq, Eq)]
pub struct Queue {
    pub head: u8,
    pub count: u16,
}

impl Queue {
    // The queue that holds nothing.
    pub fn new() -> Queue
        ensures { result ≡ empty_queue }
    {
        Queue { head: 0, count: 0 }
    }

    // How many bytes it holds.
    pub fn len(self) -> usize
        ensures { result ≡ held self }
    {
        usize::from(self.count).min(256)
    }

    // How many more bytes it can hold.
    pub fn room(self) -> usize
        ensures { result ≡ room self }
    {
        256 - self.len()
    }

    // Byte i, the oldest being byte 0; for i past the last, what stands there in the ring.
    pub fn at(self, bytes: &[u8; 256], i: usize) -> u8
        ensures { result ≡ byte_at bytes.now self i }
    {
        bytes[place(self.head, i)]
    }

    // With b at the back. A full queue and its bytes stay as they are.
    pub fn push(self, bytes: &mut [u8; 256], b: u8) -> Queue
        ensures { (result ≡ queue_with self (b ∷ [])) × (bytes.new ≡ bytes_with bytes.old self (b ∷ [])) }
    {
        let count = self.count;
        if count < 256 {
            let back = place(self.head, count as usize);
            bytes[back] = b;
            return Queue {
                count: count + 1,
                ..self
            };
        }
        self
    }

    // With all of data at the back. Where there is not room for all of it, the queue and its bytes stay as they are; where the lent memory is
    // under 256 bytes, places past its end take nothing.
    pub fn push_all(self, bytes: &mut [u8], data: &[u8]) -> Queue
        ensures { (result ≡ queue_with self «data».now) × (bytes.new ≡ bytes_with bytes.old self «data».now) }
    {
        let n = data.len();
        if n <= self.room() {
            let back = self.head as usize + self.len();
            for (i, b) in data.iter().enumerate() {
                let place = (back + i) % 256;
                if place < bytes.len() {
                    bytes[place] = *b;
                }
            }
            return Queue {
                count: self.count + n as u16,
                ..self
            };
        }
        self
    }

    // Without its n oldest bytes; empty where it holds no more than n.
    pub fn drop(self, n: usize) -> Queue
        ensures { result ≡ queue_without n self }
    {
        Queue {
            head: place(self.head, n) as u8,
            count: self.len().saturating_sub(n) as u16,
        }
    }

    // The oldest byte and the queue without it; none where it is empty.
    pub fn pop(self, bytes: &[u8; 256]) -> Option<(u8, Queue)>
        ensures { result ≡ popped bytes.now self }
    {
        if self.count == 0 {
            return None;
        }
        Some((self.at(bytes, 0), self.drop(1)))
    }
}

// Place i of the ring, counted from the head.
fn place(head: u8, i: usize) -> usize
    ensures { result ≡ (head + i) % 256 }
{
    (head as usize + i % 256) % 256
}

// Messages written into lent buffers and read back: the examples, and data lengths on both sides of each limit.
use crate::messages::Message;
use crate::{readings, rows};
use page::STDOUT;

// The longest buffer.
const LONGEST: usize = 65600;

// Messages with the first bytes of long data, on both sides of each limit of a length; all of it also into no buffer.
pub fn lengths(title: &str, m: Message, data: &[u8]) {
    for n in [0usize, 1, 255, 256, 65535, 65536] {
        page::tell(STDOUT, format_args!("{title}, data length {n}\n"));
        rooms(m, word::front(data, n));
    }
    into(m, data, 0);
}

// Into a large buffer, into one byte too few, and into just enough.
pub fn rooms(m: Message, data: &[u8]) {
    let n = data.len().saturating_add(m.least());
    into(m, data, LONGEST);
    into(m, data, n.saturating_sub(1));
    into(m, data, n);
}

// Into a buffer with so much room: what came of it, and of the buffer.
fn into(m: Message, data: &[u8], room: usize) {
    let mut space = [0xEEu8; LONGEST];
    page::tell(STDOUT, format_args!("  into {room}: "));
    if let Some(out) = space.get_mut(..room) {
        let n = written(m, data, out);
        let kept = word::behind(out, n);
        let same = kept.iter().filter(|b| **b == 0xEE).count();
        let all = kept.len();
        page::tell(STDOUT, format_args!(", still EE: {same} of {all}\n"));
        if 0 < n {
            read_back(m, data, word::front(out, n));
        }
    }
}

// Says what writing a message comes to, and hands back its length, 0 where it is refused.
fn written(m: Message, data: &[u8], out: &mut [u8]) -> usize {
    match m.write(data, out) {
        Ok(n) => {
            page::tell(STDOUT, format_args!("length {n}"));
            n
        }
        Err(refusal) => {
            page::tell(STDOUT, refusal);
            0
        }
    }
}

// The bytes of an example, what they are read as, and their nibbles.
pub fn example(m: Message, data: &[u8]) {
    let mut space = [0xEEu8; 32];
    page::say(STDOUT, b"  written: ");
    let n = written(m, data, &mut space);
    let message = word::front(&space, n);
    page::say(STDOUT, b"\n  bytes");
    page::bytes(STDOUT, message);
    page::say(STDOUT, b"\n  read: ");
    readings::reading(m, message, "\n  ");
    page::say(STDOUT, b"  nibbles");
    rows::nibbles(m, data, message.len().saturating_mul(2));
}

// The header, the first and the last byte of the data, a response's status, and what is read back.
fn read_back(m: Message, data: &[u8], s: &[u8]) {
    let (head, rest) = (word::front(s, m.head()), word::behind(s, m.head()));
    page::say(STDOUT, b"    header");
    page::bytes(STDOUT, head);
    match word::front(rest, data.len()) {
        [] => page::tell(STDOUT, ", no data"),
        [only] => page::tell(STDOUT, format_args!(", data {only:02X} to {only:02X}")),
        [first, .., last] => {
            page::tell(STDOUT, format_args!(", data {first:02X} to {last:02X}"));
        }
    }
    if let [status] = word::behind(rest, data.len()) {
        page::tell(STDOUT, format_args!(", status {status:02X}"));
    }
    page::say(STDOUT, b"\n    read: ");
    let found = readings::found(m, s);
    let n = found.len();
    let same = found.iter().zip(data).filter(|(a, b)| a == b).count();
    page::tell(STDOUT, format_args!(", data length {n}, {same} as given\n"));
}

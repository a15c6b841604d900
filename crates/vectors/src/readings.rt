// Every cut of a message, and of two messages one behind the other, read as one.
use crate::messages::Message;
use page::STDOUT;

pub fn cuts(m: Message, s: &[u8]) {
    page::bytes(STDOUT, s);
    page::say(STDOUT, b"\n");
    for n in 0..=s.len() {
        page::tell(STDOUT, format_args!("  first {n}: "));
        reading(m, word::front(s, n), ", ");
    }
}

// What a slice is read as and, behind what stands between them, its data.
pub fn reading(m: Message, s: &[u8], between: &str) {
    let data = found(m, s);
    page::tell(STDOUT, between);
    if data.is_empty() {
        page::say(STDOUT, b"no ");
    }
    page::say(STDOUT, b"data");
    page::bytes(STDOUT, data);
    page::say(STDOUT, b"\n");
}

// Says what a slice is read as, and hands back its data field.
pub fn found(m: Message, s: &[u8]) -> &[u8] {
    match m.read(s) {
        Ok(read) => page::tell(STDOUT, read),
        Err(refusal) => page::tell(STDOUT, refusal),
    }
    m.data_of(s)
}

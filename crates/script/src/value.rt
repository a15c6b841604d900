// The values that words stand for.
use statement::Value;
use word::Kind;

// The value of a word by kinds between which bars stand: a number, or the place of the word among them.
pub fn of(kinds: &[u8], word: &[u8], pass: Option<u64>) -> Option<Value> {
    for (place, kind) in kinds.split(|b| *b == b'|').enumerate() {
        let value = match Kind::of(kind) {
            Kind::Word(name) => (word == name).then_some(Value::Word(place as u64)),
            kind => number(kind, word, pass).map(Value::Number),
        };
        if value.is_some() {
            return value;
        }
    }
    None
}

// The number that a word stands for, in the range of its kind.
fn number(kind: Kind<'_>, word: &[u8], pass: Option<u64>) -> Option<u64> {
    match kind {
        Kind::Code => within(word, pass, 0, 255),
        Kind::Command => word::command(word).map(u64::from),
        Kind::Number => within(word, pass, 0, 999999999),
        Kind::Byte => word::byte(word).map(u64::from),
        Kind::Range(least, most) => within(word, pass, least, most),
        _ => None,
    }
}

// A decimal number, or that of the pass, if it is in a range.
pub fn within(word: &[u8], pass: Option<u64>, least: u64, most: u64) -> Option<u64> {
    let number = if is_pass(word) {
        pass
    } else {
        word::decimal(word)
    };
    number.filter(|n| (least..=most).contains(n))
}

pub fn is_pass(word: &[u8]) -> bool {
    word == b"$".as_slice()
}

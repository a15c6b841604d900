// The words of a form, and the kinds of value that stand among them.
use statement::Form;

// What the first words of a line and of a form have in common: how many they are, what of the line is behind them, and whether the form has
// no word more before its first value.
#[derive(Clone, Copy)]
pub struct Lead<'a> {
    pub words: usize,
    pub rest: &'a [u8],
    pub fits: bool,
}

// What may be left out: a name, the kind of a value, or a name with the kind of its value behind it.
#[derive(Clone, Copy)]
pub enum Optional<'a> {
    Name(&'a [u8]),
    Value(&'a [u8]),
    Named(&'a [u8], &'a [u8]),
}

// A kind of value. A word that is none of the others stands for itself.
#[derive(Clone, Copy)]
pub enum Kind<'a> {
    Code,
    Command,
    Number,
    Byte,
    Range(u64, u64),
    Word(&'a [u8]),
    // These take the rest of the line.
    Bytes,
    Entries,
    Words,
}

// The words that a line must have by a form, and behind them those that may be left out, each in brackets.
pub fn halves(form: Form) -> (&'static [u8], &'static [u8]) {
    let words = form.words();
    let n = words.iter().position(|b| *b == b'[').unwrap_or(words.len());
    (crate::front(words, n), crate::behind(words, n))
}

// Whether a word of a form stands for itself.
pub fn is_name(word: &[u8]) -> bool {
    matches!(word, [b'a'..=b'z', ..]) & !word.contains(&b'|')
}

impl<'a> Lead<'a> {
    // The words of a form up to its first value, which the line must have too.
    pub fn of(form: Form, line: &'a [u8]) -> Lead<'a> {
        let mut lead = Lead {
            words: 0,
            rest: line,
            fits: true,
        };
        for name in form.words().split(|b| *b == b' ') {
            if !is_name(name) {
                break;
            }
            let (word, rest) = crate::next(lead.rest);
            if word != name {
                lead.fits = false;
                break;
            }
            lead.words = lead.words.saturating_add(1);
            lead.rest = rest;
        }
        lead
    }
}

impl<'a> Optional<'a> {
    // What stands behind a bracket, up to the one that closes it.
    pub fn of(words: &'a [u8]) -> Optional<'a> {
        let (words, _) = crate::cut(words, b']');
        match crate::cut(words, b' ') {
            (name, Some(kind)) => Optional::Named(name, kind),
            (name, None) if is_name(name) => Optional::Name(name),
            (kind, None) => Optional::Value(kind),
        }
    }
}

impl<'a> Kind<'a> {
    // The kind that a word of a form says, or one of the words between which bars stand.
    pub fn of(word: &'a [u8]) -> Kind<'a> {
        match word {
            b"CODE" => Kind::Code,
            b"COMMAND" => Kind::Command,
            b"N" => Kind::Number,
            b"BYTE" => Kind::Byte,
            b"BYTES" => Kind::Bytes,
            b"ENTRIES" => Kind::Entries,
            b"WORDS" => Kind::Words,
            _ => Kind::range(word).unwrap_or(Kind::Word(word)),
        }
    }

    fn range(word: &'a [u8]) -> Option<Kind<'a>> {
        let (least, most) = crate::cut(word, b'-');
        Some(Kind::Range(crate::decimal(least)?, crate::decimal(most?)?))
    }
}

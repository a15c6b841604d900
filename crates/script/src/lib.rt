// The statements of a script, one to a line. A line is read by the forms alone, without any knowledge of a bus; its bytes go to lent memory.

#![tactic(auto)]

mod bytes;
mod value;

use statement::{Form, MOST, Statement, Value, Values};
use word::{Kind, Lead, Optional, Words};

// The statement of a line, and what is behind the words that were read.
#[derive(Clone, Copy)]
pub struct Line<'a> {
    pub statement: Statement,
    pub rest: &'a [u8],
}

// A word that makes a line no statement, and what was expected in its place. The word has no letters where the line ends.
#[derive(Clone, Copy)]
pub struct Misread<'a> {
    pub word: &'a [u8],
    pub wanted: Wanted,
}

#[derive(Clone, Copy)]
pub enum Wanted {
    // One of the words that forms go on with behind so many that they have in common with the line.
    Words(usize),
    // A value of a kind of a form, or of one of the kinds between which bars stand.
    Kind(&'static [u8]),
    // One of the words of a form that may be left out.
    Optional(Form),
    // The end of the line.
    End,
}

// What is left of a line, and what was read of it: the values, and how many bytes.
#[derive(Drop)]
struct Reading<'a> {
    rest: &'a [u8],
    pass: Option<u64>,
    values: Values,
    bytes: usize,
}

// The most values of a line.
const VALUES: usize = 80;

// Reads a line. Its bytes go to the front of the lent memory. `$` stands for the number of the pass, none outside a repeat.
pub fn read<'a>(
    line: &'a [u8],
    pass: Option<u64>,
    bytes: &mut [u8; MOST],
) -> Result<Line<'a>, Misread<'a>> {
    let (first, _) = word::next(line);
    if first.is_empty() {
        return Ok(Line {
            statement: Statement::blank(),
            rest: line,
        });
    }
    let (form, lead) = form_of(line)?;
    let mut reading = Reading {
        rest: lead.rest,
        pass,
        values: Values::none(),
        bytes: 0,
    };
    reading.read(form, lead.words, bytes)?;
    Ok(Line {
        statement: Statement {
            form: Some(form),
            values: reading.values,
            bytes: reading.bytes,
        },
        rest: reading.rest,
    })
}

// The first form that begins as the line does, if none before it has more words in common with the line.
fn form_of<'a>(line: &'a [u8]) -> Result<(Form, Lead<'a>), Misread<'a>> {
    let mut most = Lead {
        words: 0,
        rest: line,
        fits: false,
    };
    for form in Form::ALL {
        let lead = Lead::of(form, line);
        if most.words <= lead.words {
            if lead.fits {
                return Ok((form, lead));
            }
            most = lead;
        }
    }
    let (word, _) = word::next(most.rest);
    Err(Misread {
        word,
        wanted: Wanted::Words(most.words),
    })
}

// What a form has in brackets for a word: its place, and what it is. A value without a name is meant by any word.
fn optional(others: &'static [u8], word: &[u8]) -> Option<(usize, Optional<'static>)> {
    for (place, words) in others.split(|b| *b == b'[').skip(1).enumerate() {
        let optional = Optional::of(words);
        let is_meant = match optional {
            Optional::Name(name) | Optional::Named(name, _) => name == word,
            Optional::Value(_) => true,
        };
        if is_meant {
            return Some((place, optional));
        }
    }
    None
}

impl<'a> Reading<'a> {
    // The values of a form, behind so many words that it begins with.
    fn read(
        &mut self,
        form: Form,
        words: usize,
        bytes: &mut [u8; MOST],
    ) -> Result<(), Misread<'a>> {
        let (needed, others) = word::halves(form);
        let kinds = needed.split(|b| *b == b' ').filter(|w| !w.is_empty());
        let mut place = 0usize;
        for kinds in kinds.skip(words) {
            if self.value(place, kinds, bytes)? {
                return Ok(());
            }
            place = place.saturating_add(1);
        }
        for _ in place..VALUES {
            let (word, rest) = word::next(self.rest);
            if word.is_empty() {
                return Ok(());
            }
            let Some((i, optional)) = optional(others, word) else {
                return Err(self.misread(if others.is_empty() {
                    Wanted::End
                } else {
                    Wanted::Optional(form)
                }));
            };
            if self.optional(place.saturating_add(i), optional, rest, bytes)? {
                return Ok(());
            }
        }
        Err(self.misread(Wanted::End))
    }

    // What a form has in brackets, and what is behind its first word; whether it took the rest of the line.
    fn optional(
        &mut self,
        place: usize,
        optional: Optional<'static>,
        rest: &'a [u8],
        bytes: &mut [u8; MOST],
    ) -> Result<bool, Misread<'a>> {
        match optional {
            Optional::Value(kinds) => self.value(place, kinds, bytes),
            Optional::Named(_, kinds) => {
                self.rest = rest;
                self.value(place, kinds, bytes)
            }
            Optional::Name(_) => {
                self.rest = rest;
                self.values.set_flag(place, true);
                Ok(false)
            }
        }
    }

    // A value of a kind, or of one of the kinds between which bars stand; whether it took the rest of the line.
    fn value(
        &mut self,
        place: usize,
        kinds: &'static [u8],
        bytes: &mut [u8; MOST],
    ) -> Result<bool, Misread<'a>> {
        match Kind::of(kinds) {
            Kind::Words => Ok(true),
            Kind::Entries => {
                self.words(kinds, bytes, bytes::entry)?;
                if bytes::RING < self.bytes {
                    return Err(self.misread(Wanted::Kind(kinds)));
                }
                Ok(true)
            }
            Kind::Bytes => {
                self.values.set_flag(place, true);
                self.words(kinds, bytes, bytes::piece)?;
                Ok(true)
            }
            _ => {
                let (word, rest) = word::next(self.rest);
                let value = value::of(kinds, word, self.pass);
                if value.is_none() {
                    return Err(self.misread(Wanted::Kind(kinds)));
                }
                self.values.set(place, value);
                self.rest = rest;
                Ok(false)
            }
        }
    }

    // The bytes that all words stand for that are left: each is put behind those before it.
    fn words<F: Fn(&mut [u8; MOST], usize, &[u8], Option<u64>) -> Option<usize>>(
        &mut self,
        kinds: &'static [u8],
        bytes: &mut [u8; MOST],
        put: F,
    ) -> Result<(), Misread<'a>>
        requires { F.IsAlwaysCallable put }
    {
        let mut is_empty = true;
        for (word, rest) in Words(self.rest) {
            let Some(end) = put(bytes, self.bytes, word, self.pass) else {
                return Err(self.misread(Wanted::Kind(kinds)));
            };
            self.bytes = end;
            self.rest = rest;
            is_empty = false;
        }
        if is_empty {
            return Err(self.misread(Wanted::Kind(kinds)));
        }
        Ok(())
    }

    // The next word is none of those that were expected.
    fn misread(&self, wanted: Wanted) -> Misread<'a> {
        let (word, _) = word::next(self.rest);
        Misread { word, wanted }
    }
}

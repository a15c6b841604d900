// What is said of a line that is no statement, and what stands in a statement's place.

#![tactic(auto)]

use page::{Out, Page};
use script::{Misread, Wanted};
use statement::{Form, Value, Values};
use word::{Kind, Lead, Optional};

// The word of a line that was read, and what was expected.
pub fn misread(out: Out, line: &[u8], m: Misread<'_>) {
    let mut page = Page::new();
    quote(&mut page, m.word);
    match m.wanted {
        Wanted::Words(words) => next_words(&mut page, line, words),
        Wanted::Kind(kinds) => expected(&mut page, kinds),
        Wanted::Optional(form) => {
            let (_, others) = word::halves(form);
            page.words(b"one of these: ");
            page.words(others);
        }
        Wanted::End => page.words(b"the end of the line"),
    }
    page.words(b"\n");
    page.write(out);
}

fn quote(page: &mut Page, word: &[u8]) {
    if word.is_empty() {
        page.words(b"the line ends, expected ");
    } else {
        page.words(b"read \"");
        page.show(word::front(word, 60));
        page.words(b"\", expected ");
    }
}

// The words that may stand where no form goes on as the line does, behind so many that some forms have.
fn next_words(page: &mut Page, line: &[u8], words: usize) {
    page.words(b"one of these words:");
    let mut last: &[u8] = b"";
    for form in Form::ALL {
        let lead = Lead::of(form, line);
        let next = form.words().split(|b| *b == b' ').nth(lead.words);
        let name = next.unwrap_or(b"");
        if (lead.words == words) & (name != last) {
            page.words(b" ");
            page.words(name);
        }
        last = name;
    }
}

// Kinds of value in words. Words between which bars stand are their own description.
fn expected(page: &mut Page, kinds: &[u8]) {
    let (first, others) = word::cut(kinds, b'|');
    match Kind::of(first) {
        Kind::Word(_) => {
            page.words(kinds);
            return;
        }
        Kind::Code => page.words(b"a device code, 0-255"),
        Kind::Command => page.words(
            b"a command code in hexadecimal, or open, close, read, write, enable, disable, null or reset",
        ),
        Kind::Number => page.words(b"a number, 0-999999999"),
        Kind::Byte => page.words(b"one or two hexadecimal digits"),
        Kind::Range(least, most) => page.tell(format_args!("a number, {least}-{most}")),
        Kind::Bytes => page.words(
            b"bytes in hexadecimal, as 41 or 41*300 or 00+300, or text in quotes; at most 65,536",
        ),
        Kind::Entries => page.words(b"up to sixteen device codes, 0-255, marked ones with a star"),
        Kind::Words => page.words(b"words"),
    }
    if let Some(others) = others {
        page.words(b", or ");
        page.words(others);
    }
}

// A form with values in their places, as a statement has them, behind what stands on a page.
pub fn statement(page: &mut Page, form: Form, values: &Values) {
    let (needed, others) = word::halves(form);
    let mut place = 0usize;
    for word in needed.split(|b| *b == b' ').filter(|w| !w.is_empty()) {
        // Behind a value a name has a place of its own.
        if word::is_name(word) & (place == 0) {
            page.words(b" ");
            page.words(word);
        } else {
            put(page, word, values.at(place));
            place = place.saturating_add(1);
        }
    }
    for (i, words) in others.split(|b| *b == b'[').skip(1).enumerate() {
        let value = values.at(place.saturating_add(i));
        match Optional::of(words) {
            Optional::Value(kinds) => put(page, kinds, value),
            Optional::Name(name) => put_name(page, name, value),
            Optional::Named(name, kinds) => {
                put_name(page, name, value);
                put(page, kinds, value);
            }
        }
    }
}

// The name of a value that is there, with a space before it.
fn put_name(page: &mut Page, name: &[u8], value: Option<Value>) {
    if value.is_some() {
        page.words(b" ");
        page.words(name);
    }
}

// A value as its kind is written, with a space before it: one of the words between which bars stand, a byte, or a number.
fn put(page: &mut Page, kinds: &[u8], value: Option<Value>) {
    let (first, _) = word::cut(kinds, b'|');
    match value {
        None => {}
        Some(Value::Word(place)) => {
            let word = kinds.split(|b| *b == b'|').nth(place as usize);
            page.words(b" ");
            page.words(word.unwrap_or(kinds));
        }
        Some(Value::Number(n)) => match Kind::of(first) {
            Kind::Byte | Kind::Bytes => {
                let byte = n % 256;
                page.tell(format_args!(" {byte:02X}"));
            }
            _ => page.tell(format_args!(" {n}")),
        },
    }
}

// Expectations and failures. A failure is said with its script and line, and all of them again at the end.
use crate::tell::SHOWN;
use crate::{Awaited, Desk, Failures, Script, plan, tell};
use page::{Page, STDOUT};
use statement::{Form, Statement, Value, Values};

// An expectation of values: those that the statement names, and those that were found. It holds, or there are the words of a failure.
pub fn values(desk: &Desk, script: Script<'_>, found: &Values) -> Result<(), Page> {
    let s = &desk.statement;
    if is_as_found(s, found) {
        return Ok(());
    }
    let mut page = failing(desk, script);
    if let Some(form) = s.form {
        fault::statement(&mut page, form, found);
    }
    Err(page)
}

// What is not named or not found is 0, and a nibble 15.
fn is_as_found(s: &Statement, found: &Values) -> bool {
    let lowest = match s.form {
        Some(Form::ExpectPulls) => Some(3),
        Some(Form::ExpectLines) => Some(2),
        _ => None,
    };
    s.values.0.iter().zip(&found.0).enumerate().all(|(i, (named, found))| {
        let none = Value::Number(if lowest == Some(i) { 15 } else { 0 });
        named.unwrap_or(none) == found.unwrap_or(none)
    })
}

// An expectation of bytes: those of the statement, and those that were found.
pub fn bytes(desk: &Desk, script: Script<'_>, wanted: &[u8], found: &[u8]) -> Result<(), Page> {
    let s = &desk.statement;
    let is_early = s.is(Form::ExpectData) & desk.status.is_none();
    if is_found(s.form, wanted, found) & !is_early {
        return Ok(());
    }
    let mut page = failing(desk, script);
    if is_early {
        page.words(b" no command has ended");
    } else if s.is(Form::ExpectScreen) {
        row(&mut page, s.values, found);
    } else if found.is_empty() {
        page.words(b" nothing");
    } else if s.is(Form::ExpectRing) {
        tell::entries(&mut page, found);
    } else {
        page.bytes(word::front(found, SHOWN));
    }
    Err(page)
}

// The row of a screen in the statement that would have held.
fn row(page: &mut Page, named: Values, found: &[u8]) {
    let mut values = named;
    values.set(2, None);
    fault::statement(page, Form::ExpectScreen, &values);
    page.quoted(word::front(found, end_of(found, b' ')));
}

// Whether the bytes are all that were found; of a buffer that was lent the first, with the rest as it was lent, and of the row of a screen
// the first, with blanks behind them.
fn is_found(form: Option<Form>, wanted: &[u8], found: &[u8]) -> bool {
    let lent = match form {
        Some(Form::ExpectBuffer | Form::ExpectResponse) => 0xEE,
        Some(Form::ExpectScreen) => b' ',
        _ => return wanted == found,
    };
    match found.strip_prefix(wanted) {
        Some(rest) => rest.iter().all(|b| *b == lent),
        None => false,
    }
}

// How many bytes there are up to the last that is not the one meant.
fn end_of(s: &[u8], b: u8) -> usize {
    s.iter()
        .rposition(|c| *c != b)
        .map_or(0, |i| i.saturating_add(1))
}

// What the last statement came to must be expected by this one, or it is a failure.
pub fn settled(desk: &mut Desk, script: Script<'_>, form: Option<Form>, failures: &mut Failures) {
    let (Some(pending), Some(form)) = (desk.pending, form) else {
        return;
    };
    desk.pending = None;
    let mut page = begun(script, pending.line, pending.start);
    match pending.what {
        Awaited::Refusal(_) if form == Form::ExpectRefusal => return,
        Awaited::Unreached if form == Form::ExpectUnreached => return,
        Awaited::Refusal(number) => page.tell(format_args!("; refusal {number}")),
        Awaited::Unreached => page.words(b"; not reached"),
    }
    page.words(b", and the next statement does not expect it");
    judged(desk, Err(page), failures);
}

// The words of a failure of the statement that is under way, up to what was found.
fn failing(desk: &Desk, script: Script<'_>) -> Page {
    let mut page = begun(script, desk.plan.line, desk.plan.start);
    page.words(b"; found:");
    page
}

// Script, line and statement of a failure.
fn begun(script: Script<'_>, line: u64, start: usize) -> Page {
    let mut page = Page::new();
    page.words(b"FAILS ");
    page.show(script.name);
    page.tell(format_args!(":{line}: "));
    page.show(word::front(plan::line_at(script.text, start), 120));
    page
}

// An expectation holds, or there are the words of a failure. These are said, and kept for the end while there is room.
pub fn judged(desk: &mut Desk, verdict: Result<(), Page>, failures: &mut Failures) {
    match verdict {
        Ok(()) => {
            desk.held = desk.held.saturating_add(1);
            desk.say("          holds\n");
        }
        Err(mut page) => {
            page.letter(b'\n');
            desk.failed = desk.failed.saturating_add(1);
            page.write(STDOUT);
            failures.keep(page.letters());
        }
    }
}

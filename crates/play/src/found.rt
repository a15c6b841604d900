// What an expectation finds: bytes, or values in the places of the statement's.
use crate::{Look, Rows};
use desk::{Desk, Failures, OTHER, Script, judge, plan, tell};
use page::{Out, Page, Round};
use picture::screen;
use picture::screen::Frame;
use statement::{CELLS, Form, Statement, Store, UNIT_MEMORY, Value, Values};

// How many rounds no script can name.
const MOST_ROUNDS: u64 = 1000000000;

// An expectation of bytes, or of values.
pub(crate) fn expected(
    script: Script<'_>,
    desk: &mut Desk,
    look: &Look<'_>,
    rows: &Rows,
    store: &Store,
    failures: &mut Failures,
) {
    let s = desk.statement;
    let verdict = match bytes(desk, look, rows, store) {
        Some(found) => judge::bytes(desk, script, word::front(&store.statement, s.bytes), found),
        None => judge::values(desk, script, &values(desk, look, rows)),
    };
    judge::judged(desk, verdict, failures);
}

// What an expectation of bytes finds, none for one of values: the data received, the response buffer, the command buffer of a unit, the row of
// a screen, or bytes that are noted: those that were taken, the entries of the ring, those that a stand-in has heard.
fn bytes<'a>(desk: &Desk, look: &Look<'a>, rows: &Rows, store: &'a Store) -> Option<&'a [u8]> {
    let s = &desk.statement;
    Some(match s.form? {
        Form::ExpectData => word::front(look.response, desk.received),
        Form::ExpectResponse => look.response,
        Form::ExpectBuffer => word::front(part(desk, look.memory), 256),
        Form::ExpectScreen => row(cells(part(desk, look.memory)), s.values.number_or(0, 0)),
        Form::ExpectTaken => word::front(&store.taken, desk.taken),
        Form::ExpectRing => word::front(&store.ring, desk.entries),
        Form::ExpectHeard => heard(desk, rows, store),
        _ => return None,
    })
}

// What a stand-in has heard.
fn heard<'a>(desk: &Desk, rows: &Rows, store: &'a Store) -> &'a [u8] {
    let i = desk
        .plan
        .find_stand_in(desk.statement.values.at(0))
        .unwrap_or(0);
    match (rows.stand_ins.get(i), store.heard.get(i)) {
        (Some(one), Some(heard)) => word::front(heard, one.heard()),
        _ => &[],
    }
}

// The memory of the unit that the statement speaks of.
fn part<'a>(desk: &Desk, memory: &'a [u8]) -> &'a [u8] {
    let i = desk.plan.subject(&desk.statement).unwrap_or(0);
    unit_memory(memory, i)
}

fn unit_memory(memory: &[u8], i: usize) -> &[u8] {
    memory.chunks(UNIT_MEMORY).nth(i).unwrap_or(&[])
}

// The cells of a screen.
fn cells(memory: &[u8]) -> &[u8] {
    word::front(word::behind(memory, CELLS), 1920)
}

fn row(cells: &[u8], number: u64) -> &[u8] {
    cells
        .chunks(80)
        .nth(usize::try_from(number).unwrap_or(0))
        .unwrap_or(&[])
}

// The values of the desk and of the lines. Those of a unit or of the controller were found by a look at it.
fn values(desk: &Desk, look: &Look<'_>, rows: &Rows) -> Values {
    let named = &desk.statement.values;
    let mut found = Values::none();
    match desk.statement.form {
        Some(
            Form::ExpectQueued
            | Form::ExpectUnit
            | Form::ExpectPhase
            | Form::ExpectPulls
            | Form::ExpectController,
        ) => return look.values,
        Some(Form::ExpectCursor) => {
            found.set(0, look.values.at(0));
            found.set(1, look.values.at(1));
            found.set(2, named.at(2));
        }
        Some(Form::ExpectLines) => {
            let lines = crate::levels(desk, rows);
            found.set_flag(0, lines.bav);
            found.set_flag(1, lines.hsk);
            found.set_number(2, u64::from(lines.nibble));
        }
        Some(form @ (Form::ExpectTurns | Form::ExpectWaited)) => {
            let host = rows.hosts.at(desk.plan.find(named.at(0)));
            found.set(0, named.at(0));
            found.set_number(
                1,
                if form == Form::ExpectTurns {
                    host.turns
                } else {
                    host.waited
                },
            );
        }
        Some(form) => found.set(0, value(desk, form, rows)),
        None => {}
    }
    found
}

// The one value that an expectation finds; of what has no value, 1 where it is not so.
fn value(desk: &Desk, form: Form, rows: &Rows) -> Option<Value> {
    let number = match form {
        Form::ExpectStatus => return or_none(desk.status.map(u64::from)),
        Form::ExpectRequest => return or_none(desk.request.map(u64::from)),
        Form::ExpectRefusal => return or_none(desk.refusal.map(u64::from)),
        Form::ExpectQuiet => return (!is_quiet(desk, rows)).then_some(Value::Number(1)),
        Form::ExpectUnreached => return desk.is_reached.then_some(Value::Number(1)),
        Form::ExpectRequests => desk.requests,
        // No script can name a round behind the last of these.
        Form::ExpectRound => desk.round.min(MOST_ROUNDS),
        _ => desk.ran,
    };
    Some(Value::Number(number))
}

// A number, or the word `none`.
fn or_none(number: Option<u64>) -> Option<Value> {
    Some(number.map_or(OTHER, Value::Number))
}

// Whether no party has anything to do: no line is pulled, no frame or rest runs, nothing is submitted, no unit holds a request.
pub(crate) fn is_quiet(desk: &Desk, rows: &Rows) -> bool {
    let l = crate::levels(desk, rows);
    let is_pulled = l.bav | l.hsk | (l.nibble != 15);
    desk.view.is_free & !is_pulled & !desk.view.is_requesting
}

// The screen of the statement in its frame, and what a look at it has found.
pub(crate) fn show_screen(desk: &Desk, look: &Look<'_>) {
    let looks = &look.values;
    let frame = Frame {
        row: looks.number(0),
        column: looks.number(1),
        top: looks.number(4) == Some(1),
        bottom: looks.number(5) == Some(1),
    };
    screen::show(desk.out, cells(part(desk, look.memory)), frame);
    tell::screen(desk, looks);
}

// Writes each screen of the bus to a file, if there is one.
pub fn write_screens(desk: &mut Desk, file: Out, memory: &[u8]) {
    if file.is_none() {
        return;
    }
    for (i, code) in desk.plan.units.all().iter().enumerate() {
        if plan::is_screen(*code) {
            let is_written = screen::write(file, cells(unit_memory(memory, i)));
            desk.is_lost |= !is_written;
        }
    }
}

// The unit at a place in the words in which it is expected, and how many turns it had.
pub fn show_unit(desk: &Desk, looks: &Values, i: usize, rows: &Rows) {
    let mut page = Page::new();
    fault::statement(&mut page, Form::ExpectUnit, looks);
    // Without ` expect ` before them.
    let words = word::behind(page.letters(), 8);
    desk.say(Round(desk.round));
    page::say(desk.out, words);
    desk.say(format_args!(" turns {}\n", rows.hosts.at(Some(i)).turns));
}

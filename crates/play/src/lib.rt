// A script without faults, statement by statement: what the bus is to do for each, and what is said and judged of it then. The bus itself
// is not known here.

#![tactic(auto)]

ghost use Rattle.std.specs.Prelude.{◌<◌, IsTrue};

pub mod found;
pub mod noted;
pub mod pictured;

use desk::hosts::Hosts;
use desk::{Awaited, Desk, Failures, Part, Script, Until, Work, judge, plan, tell};
use line::Lines;
use page::{STDERR, STDOUT};
use picture::strip::Strip;
use script::Line;
use stand_in::StandIn;
use statement::{Act, Doing, Form, Statement, Store, Values};

// What there is of each host and of each stand-in of a bus, and the strip of its picture.
#[derive(Drop)]
pub struct Rows {
    pub hosts: Hosts,
    pub stand_ins: [StandIn; 4],
    strip: Strip,
}

// What a look at the bus has found: the values that an expectation finds of a party, the response buffer, and the memory of units.
#[derive(Clone, Copy)]
pub struct Look<'a> {
    pub values: Values,
    pub response: &'a [u8],
    pub memory: &'a [u8],
}

// A run until something has happened is at most so long, where the script sets no limit.
const LIMIT: u64 = 100000;

// How far a long run is, is said every so many rounds.
const LONG: u64 = 1000000;

impl Rows {
    // Hosts that do nothing by themselves, and stand-ins that are not there yet.
    pub fn new() -> Rows {
        Rows {
            hosts: Hosts::new(),
            stand_ins: [StandIn::new(None); 4],
            strip: Strip::new(),
        }
    }

    // The stand-ins that there are.
    fn stand_ins(&self, desk: &Desk) -> &[StandIn] {
        &self.stand_ins[..desk.plan.stand_ins.len()]
    }
}

// The statement of the next line, said as it was written, and what the bus is to do for it.
pub fn next(
    script: Script<'_>,
    desk: &mut Desk,
    rows: &mut Rows,
    store: &mut Store,
    failures: &mut Failures,
) {
    let line = desk.plan.next_line(script.text);
    let read = script::read(line, desk.plan.pass(), &mut store.statement);
    // Each line of the script was read before, and is a statement or none.
    let read = read.unwrap_or(Line {
        statement: Statement::blank(),
        rest: b"",
    });
    desk.statement = read.statement;
    desk.is_under_way = true;
    judge::settled(desk, script, read.statement.form, failures);
    said(desk, line, read.rest);
    planned(desk, rows, store);
}

// A statement is said before what comes of it; of `say` the words alone, which stand in the rest of its line.
fn said(desk: &Desk, line: &[u8], rest: &[u8]) {
    match desk.statement.form {
        Some(Form::Say) => page::show(desk.out, word::past_blanks(rest)),
        Some(_) => {
            desk.say("> ");
            page::show(desk.out, word::front(line, 100));
        }
        None => return,
    }
    desk.say("\n");
}

// The script has ended.
pub fn ended(script: Script<'_>, desk: &mut Desk, failures: &mut Failures) {
    judge::settled(desk, script, Some(Form::Say), failures);
    pictured::end(desk);
}

// What the bus is to do for a statement. Of the others what they set stands on the desk alone, or they only look at the bus.
fn planned(desk: &mut Desk, rows: &mut Rows, store: &mut Store) {
    let s = desk.statement;
    let Some(form) = s.form else {
        desk.work = Work::new(Act::Controller, 0);
        return;
    };
    desk.work = match form {
        Form::Controller | Form::Submit | Form::Force | Form::Acknowledge => {
            Work::new(Act::Controller, 1)
        }
        Form::Unit => Work::new(Act::OneMore, 1),
        Form::Feed | Form::Take | Form::Raise | Form::Restart => Work::new(party(desk), 1),
        Form::Step => Work::new(party(desk), s.values.number_or(5, 1)),
        Form::RunUntilEnded | Form::RunUntilQuiet | Form::RunUntilFree | Form::Run => {
            Work::new(Act::Round, s.values.number_or(0, LIMIT)).until(until(form))
        }
        Form::Do => waits(),
        Form::StandIn
        | Form::Answer
        | Form::AcknowledgeEach
        | Form::AcknowledgeByHand
        | Form::Busy
        | Form::Free
        | Form::Hold => {
            set(desk, form, rows, store);
            Work::new(Act::Controller, 0)
        }
        _ => {
            desk.work = Work::new(Act::Controller, 0);
            return;
        }
    };
    desk.refusal = None;
    desk.is_reached = true;
}

// An act of the party whose code is the first value of the statement.
fn party(desk: &Desk) -> Act {
    match desk.plan.find(desk.statement.values.at(0)) {
        Some(i) => Act::Unit(i),
        None => Act::Controller,
    }
}

// What a run waits for.
fn until(form: Form) -> Option<Until> {
    match form {
        Form::RunUntilEnded => Some(Until::Ended),
        Form::RunUntilQuiet => Some(Until::Quiet),
        Form::RunUntilFree => Some(Until::Free),
        _ => None,
    }
}

// The three parts of a `do`.
fn waits() -> Work {
    Work::new(Act::Round, LIMIT)
        .until(Some(Until::Free))
        .part(Part::Waits)
}

fn submits() -> Work {
    Work::new(Act::Controller, 1).part(Part::Submits)
}

fn runs() -> Work {
    Work::new(Act::Round, LIMIT)
        .until(Some(Until::Ended))
        .part(Part::Runs)
}

// What application, hosts, lines and stand-ins do from now on.
fn set(desk: &mut Desk, form: Form, rows: &mut Rows, store: &mut Store) {
    let s = desk.statement;
    let values = &s.values;
    let place = desk.plan.find(values.at(0));
    match form {
        Form::StandIn => {
            let i = desk.plan.stand_ins.len();
            desk.plan.add_stand_in(values);
            if let Some(one) = rows.stand_ins.get_mut(i) {
                *one = StandIn::new(plan::heard(values.at(0)));
            }
        }
        Form::Answer => answer(desk, rows, store),
        Form::AcknowledgeEach => desk.acknowledges = true,
        Form::AcknowledgeByHand => desk.acknowledges = false,
        Form::Busy => rows.hosts.be_busy(place, values.number_or(1, 0)),
        Form::Free => rows.hosts.be_free(place, values.number_or(2, 0)),
        _ => {
            desk.hold = values.number_or(0, 0);
            desk.held_low = desk::levels(values);
        }
    }
}

// What a stand-in answers.
fn answer(desk: &Desk, rows: &mut Rows, store: &mut Store) {
    let s = &desk.statement;
    let Some(i) = desk.plan.find_stand_in(s.values.at(0)) else {
        return;
    };
    let bytes = word::front(&store.statement, s.bytes);
    if let Some(one) = rows.stand_ins.get_mut(i) {
        one.answer(&s.values, bytes.len());
    }
    let kept = store.answers.get_mut(i);
    if let Some(kept) = kept.and_then(|answer| answer.get_mut(..bytes.len())) {
        kept.copy_from_slice(bytes);
    }
}

// Whether the bus does so once more. How far a long run is, is said.
pub fn goes_on(desk: &Desk, rows: &Rows) -> bool
    ensures { IsTrue result → desk.now.work.done < desk.now.work.most }
{
    let Work {
        act,
        done,
        most,
        ..
    } = desk.work;
    if (done % LONG == 0) & (0 < done) & (act == Act::Round) {
        page::tell(STDERR, format_args!("hexbus: {done} of {most} rounds\n"));
    }
    (done < most) & !is_over(desk, rows)
}

// Whether the run has come to the end that it was to come to.
fn is_over(desk: &Desk, rows: &Rows) -> bool {
    match desk.work.until {
        Some(Until::Ended) => !desk.is_submitted,
        Some(Until::Quiet) => found::is_quiet(desk, rows),
        Some(Until::Free) => desk.view.is_free,
        None => false,
    }
}

// The levels left by all pulls: those of the parties of the bus, of stand-ins, and of what holds lines low from outside.
pub(crate) fn levels(desk: &Desk, rows: &Rows) -> Lines {
    let lines = stand_in::levels(rows.stand_ins(desk), desk.view.lines);
    if 0 < desk.hold {
        line::wired(lines, desk.held_low)
    } else {
        lines
    }
}

// What the bus does now, in a round at these levels, and else at those that the statement names. Before a round it is an act of a unit whose
// host is due to raise a request by itself.
pub fn doing(desk: &Desk, rows: &mut Rows) -> Doing {
    let is_round = desk.work.act == Act::Round;
    let due = if is_round & !desk.has_raised {
        rows.hosts.due(desk.round)
    } else {
        None
    };
    let (act, seen, busy) = match due {
        Some(i) => (Act::Unit(i), desk::levels(&desk.statement.values), 0),
        None if is_round => (Act::Round, levels(desk, rows), rows.hosts.busy()),
        None => (desk.work.act, desk::levels(&desk.statement.values), 0),
    };
    Doing {
        act,
        seen,
        busy,
        length: desk.length,
        lent: desk.lent,
    }
}

// The bus has done what it was to do for a statement, or for a part of it. What a look at it has found.
pub fn concluded(
    script: Script<'_>,
    desk: &mut Desk,
    look: &Look<'_>,
    rows: &Rows,
    store: &Store,
    failures: &mut Failures,
) {
    let s = desk.statement;
    if let Some(form) = s.form {
        match form {
            Form::RunUntilEnded | Form::RunUntilQuiet | Form::RunUntilFree | Form::Run => {
                ran(desk, rows)
            }
            Form::Do => done(desk, rows),
            Form::Step => desk.ran = desk.work.done,
            Form::Take => tell::given(desk, word::front(&store.taken, desk.taken)),
            Form::Controller
            | Form::Unit
            | Form::Submit
            | Form::Force
            | Form::Acknowledge
            | Form::Feed
            | Form::Raise
            | Form::Restart => tell::refusal(desk, form),
            _ if is_of_desk(form) => shown(desk, form, look, store),
            _ => found::expected(script, desk, look, rows, store, failures),
        }
    }
    if desk.work.part.is_none() {
        desk.is_under_way = false;
        desk.plan.past(&s);
    }
}

// A `do` waits until the bus is free, submits, and runs until the command has ended.
fn done(desk: &mut Desk, rows: &Rows) {
    match desk.work.part {
        Some(Part::Waits) => {
            desk.ran = desk.work.done;
            if is_over(desk, rows) {
                desk.work = submits();
            } else {
                desk.work.part = None;
                unreached(desk);
            }
        }
        Some(Part::Submits) => {
            tell::refusal(desk, Form::Do);
            if desk.refusal.is_none() {
                desk.work = runs();
            } else {
                desk.work.part = None;
            }
        }
        Some(Part::Runs) | None => {
            desk.work.part = None;
            ran(desk, rows);
        }
    }
}

// A run, and how long it was.
fn ran(desk: &mut Desk, rows: &Rows) {
    if desk.work.until.is_some() & !is_over(desk, rows) {
        unreached(desk);
    }
    desk.ran = desk.work.done;
    desk.note(format_args!("{} rounds\n", desk.ran));
}

fn unreached(desk: &mut Desk) {
    desk.awaits(Awaited::Unreached);
    desk.ran = desk.work.done;
    desk.is_reached = false;
    desk.say("          not reached\n");
}

// Whether a statement shows something, or what it sets stands on the desk alone.
fn is_of_desk(form: Form) -> bool {
    matches!(
        form,
        Form::StandIn
            | Form::Answer
            | Form::AcknowledgeEach
            | Form::AcknowledgeByHand
            | Form::Busy
            | Form::Free
            | Form::Hold
            | Form::Repeat
            | Form::End
            | Form::ShowUnits
            | Form::ShowRing
            | Form::ShowData
            | Form::ShowScreen
            | Form::ShowLines
            | Form::ShowFailures
            | Form::Say
    )
}

fn shown(desk: &mut Desk, form: Form, look: &Look<'_>, store: &Store) {
    match form {
        Form::End => desk.say(format_args!("          pass {}\n", desk.plan.pass().unwrap_or(0))),
        Form::ShowRing => tell::ring(desk, word::front(&store.ring, desk.entries)),
        Form::ShowData => tell::received(desk, word::front(look.response, desk.received)),
        Form::ShowScreen => found::show_screen(desk, look),
        Form::ShowLines => desk.is_pictured = !desk.is_pictured,
        Form::ShowFailures => desk.out = if desk.out.is_none() { STDOUT } else { None },
        _ => {}
    }
}

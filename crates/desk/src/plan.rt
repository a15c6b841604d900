// What the statements of a script so far make of the bus, and whether a statement can stand where it stands.
ghost use Rattle.std.specs.Prelude.{◌≢◌, ◌≤◌, ◌↔◌, IsTrue, Some};

use crate::{Codes, OTHER};
use statement::{Form, Statement, Value, Values};
use std::fmt;

#[derive(Clone, Copy)]
pub struct Plan {
    // The codes of units, and of stand-ins, none for one of every code; whether rounds are run.
    pub units: Codes<u8, 16>,
    pub stand_ins: Codes<Option<u8>, 4>,
    pub has_begun: bool,
    // The present line: where it begins, where the next one begins, its number.
    pub start: usize,
    pub next: usize,
    pub line: u64,
    pub repeat: Option<Repeat>,
    // Whether the script has a statement, and how many lines cannot be played.
    pub has_statement: bool,
    pub faults: u64,
}

// A repeat that is under way: where its first line begins, and that line's number; how many passes are left, the present one among them, and
// the number of that one.
#[derive(Clone, Copy)]
pub struct Repeat {
    pub start: usize,
    pub line: u64,
    pub passes: u64,
    pub pass: u64,
}

// Why a statement or a line cannot stand in its place.
#[derive(Clone, Copy, Debug, PartialEq, Eq)]
pub enum Reason {
    Late,
    Full,
    Taken,
    NoUnit,
    NoStandIn,
    LongAnswer,
    Nested,
    NoRepeat,
    LongLine,
    NoEnd,
    Empty,
    NoScreen,
    SeveralScreens,
    LongRow,
}

// The most bytes of a stand-in's answer.
const ANSWER: usize = 1024;

// The most bytes of a row of a screen.
const ROW: usize = 80;

impl Plan {
    // Before the first line of a script.
    pub(crate) fn new() -> Plan {
        Plan {
            units: Codes::new(0),
            stand_ins: Codes::new(None),
            has_begun: false,
            start: 0,
            next: 0,
            line: 1,
            repeat: None,
            has_statement: false,
            faults: 0,
        }
    }

    // The number of the pass of a repeat, none outside of one.
    pub fn pass(&self) -> Option<u64> {
        self.repeat.map(|r| r.pass)
    }

    // Where the unit of a code stands that a statement has.
    pub fn find(&self, code: Option<Value>) -> Option<usize> {
        self.units.place_of(number(code)?)
    }

    // Where the stand-in of a code stands, or that of every code.
    pub fn find_stand_in(&self, code: Option<Value>) -> Option<usize> {
        self.stand_ins.place_of(heard(code))
    }

    // Where the party stands that a statement speaks of: a screen, or the unit of the code that is its first value; none for the controller.
    pub fn subject(&self, s: &Statement) -> Option<usize> {
        match screen_of(s) {
            Some(code) => self.screen(code).ok(),
            None => self.find(s.values.at(0)),
        }
    }

    // Where the screen of a code stands, or the only one where the statement has none.
    fn screen(&self, code: Option<Value>) -> Result<usize, Reason> {
        let is_meant = |own: u8| is_screen(own)
            && code.is_none_or(|c| number(Some(c)) == Some(own));
        let mut screens = self.units.all().iter().enumerate();
        let (first, _) = screens
            .find(|(_, own)| is_meant(**own))
            .ok_or(Reason::NoScreen)?;
        let is_only = !screens.any(|(_, own)| is_meant(*own));
        unless(is_only, Reason::SeveralScreens)?;
        Ok(first)
    }

    // Whether a statement can stand here.
    pub(crate) fn allows(&self, s: &Statement) -> Result<(), Reason> {
        let Some(form) = s.form else {
            return Ok(());
        };
        let code = s.values.at(0);
        match form {
            Form::Controller => unless(self.is_empty(), Reason::Late),
            Form::Unit => self.room(self.units.len() < 16, self.find(code)),
            Form::StandIn => self.room(self.stand_ins.len() < 4, self.find_stand_in(code)),
            Form::Answer => {
                self.find_stand_in(code).ok_or(Reason::NoStandIn)?;
                unless(s.bytes <= ANSWER, Reason::LongAnswer)
            }
            Form::ExpectHeard => unless(self.find_stand_in(code).is_some(), Reason::NoStandIn),
            Form::Repeat => unless(self.repeat.is_none(), Reason::Nested),
            Form::End => unless(self.repeat.is_some(), Reason::NoRepeat),
            Form::ShowScreen | Form::ExpectScreen | Form::ExpectCursor => {
                self.screen(screen_of(s).flatten())?;
                unless(s.bytes <= ROW, Reason::LongRow)
            }
            _ => unless(
                !needs_party(form) || code == Some(OTHER) || self.find(code).is_some(),
                Reason::NoUnit,
            ),
        }
    }

    // With one statement more, which can stand here or not.
    pub(crate) fn add(&mut self, s: &Statement, can_stand: bool) {
        match s.form {
            Some(Form::Unit) if can_stand => self.add_unit(&s.values),
            Some(Form::StandIn) if can_stand => self.add_stand_in(&s.values),
            Some(form) => self.has_begun |= runs(form),
            None => {}
        }
    }

    // One more unit. Settings that are refused make none.
    pub fn add_unit(&mut self, values: &Values) {
        let retry = values.number_or(1, 20);
        if let Some(code) = number(values.at(0)) {
            if (0 < code) & (4..=65535).contains(&retry) {
                self.units.add(code);
            }
        }
    }

    pub fn add_stand_in(&mut self, values: &Values) {
        self.stand_ins.add(heard(values.at(0)));
    }

    // The line that begins where the last one ended. The next one begins behind it.
    pub fn next_line<'a>(&mut self, text: &'a [u8]) -> &'a [u8] {
        let line = line_at(text, self.next);
        self.start = self.next;
        self.next = self.start.saturating_add(line.len()).saturating_add(1);
        line
    }

    // Behind a line.
    pub(crate) fn past_line(&mut self) {
        self.line = self.line.saturating_add(1);
    }

    // Behind a statement: the next line, or at the end of a repeat its first line again.
    pub fn past(&mut self, s: &Statement) {
        self.past_line();
        if s.is(Form::Repeat) {
            self.repeat = Some(Repeat {
                start: self.next,
                line: self.line,
                passes: s.values.number_or(0, 0),
                pass: s.values.number_or(1, 1),
            });
        }
        if s.is(Form::End) {
            self.repeat = self.repeat.and_then(next_pass);
            if let Some(r) = self.repeat {
                self.next = r.start;
                self.line = r.line;
            }
        }
    }

    // Whether there is no party yet, and no round is run.
    fn is_empty(&self) -> bool {
        (self.units.len() == 0) & (self.stand_ins.len() == 0) & !self.has_begun
    }

    // Whether there is a place for one party more, whose code stands at a place already or at none.
    fn room(&self, is_there: bool, taken: Option<usize>) -> Result<(), Reason> {
        unless(!self.has_begun, Reason::Late)?;
        unless(is_there, Reason::Full)?;
        unless(taken.is_none(), Reason::Taken)
    }
}

// The line of a text that begins at a place.
pub(crate) fn line_at(text: &[u8], start: usize) -> &[u8] {
    let (line, _) = word::cut(word::behind(text, start), b'\n');
    line
}

// The code that a value names.
fn number(code: Option<Value>) -> Option<u8> {
    match code {
        Some(Value::Number(n)) => u8::try_from(n).ok(),
        _ => None,
    }
}

// The code whose commands a stand-in hears, none for those of every code. Code 0 stands for every code too.
pub fn heard(code: Option<Value>) -> Option<u8>
    ensures { result ≢ Some 0 }
{
    number(code).filter(|c| *c != 0)
}

// Whether the unit with a code is a screen.
pub fn is_screen(code: u8) -> bool
    ensures { IsTrue result ↔ ((30 ≤ code) × (code ≤ 33)) }
{
    (30..=33).contains(&code)
}

fn unless(so: bool, reason: Reason) -> Result<(), Reason> {
    if so { Ok(()) } else { Err(reason) }
}

// The pass behind one, none behind the last. The number of a pass begins again behind 1,000,000,000.
fn next_pass(r: Repeat) -> Option<Repeat> {
    let passes = r.passes.saturating_sub(1);
    if passes == 0 {
        return None;
    }
    Some(Repeat {
        passes,
        pass: r.pass % 1000000000 + 1,
        ..r
    })
}

// The code of the screen that a statement speaks of, if it speaks of one: it may name none.
fn screen_of(s: &Statement) -> Option<Option<Value>> {
    let place = match s.form? {
        Form::ShowScreen => 0,
        Form::ExpectScreen => 1,
        Form::ExpectCursor => 2,
        _ => return None,
    };
    Some(s.values.at(place))
}

// Whether a form needs a unit with its code. Some go with the controller too.
fn needs_party(form: Form) -> bool {
    matches!(
        form,
        Form::Feed
            | Form::Take
            | Form::Raise
            | Form::Busy
            | Form::Free
            | Form::Restart
            | Form::Step
            | Form::ExpectTurns
            | Form::ExpectWaited
            | Form::ExpectQueued
            | Form::ExpectUnit
            | Form::ExpectPhase
            | Form::ExpectPulls
            | Form::ExpectBuffer
    )
}

// Whether rounds are run for a form, or steps by hand.
fn runs(form: Form) -> bool {
    matches!(
        form,
        Form::Do
            | Form::RunUntilEnded
            | Form::RunUntilQuiet
            | Form::RunUntilFree
            | Form::Run
            | Form::Step
    )
}

impl fmt::Display for Reason {
    fn fmt<W: fmt::Write>(&self, f: &mut fmt::Formatter<W>) -> fmt::Result {
        f.write_str(match self {
            Reason::Late =>
                "the controller is made first, then units and stand-ins, then rounds are run",
            Reason::Full => "the bus is too large: at most sixteen units and four stand-ins",
            Reason::Taken => "another unit has this code",
            Reason::NoUnit => "no unit on the bus has this code",
            Reason::NoStandIn => "no stand-in on the bus has this code",
            Reason::LongAnswer => "an answer has at most 1,024 bytes",
            Reason::Nested => "a repeat stands within another",
            Reason::NoRepeat => "no repeat stands before this end",
            Reason::LongLine => "the line is too long: at most 4,096 bytes",
            Reason::NoEnd => "a repeat has no end before the script's",
            Reason::Empty => "the script has no statement",
            Reason::NoScreen =>
                "no such screen on the bus: a unit with a code from 30 to 33 is one",
            Reason::SeveralScreens => "the bus has several screens: of CODE says which",
            Reason::LongRow => "a row of a screen has at most 80 bytes",
        })
    }
}

// What a run of a script keeps beside the bus: what application and hosts do by themselves, what came of the last calls, what is seen of the
// bus, and what is counted.

#![tactic(auto)]

ghost use Rattle.std.specs.Prelude.{◌≡◌, IsSome};
ghost use Rattle.std.specs.Result.{result_err};

mod codes;
mod failures;
pub mod hosts;
pub mod judge;
pub mod plan;
pub mod reading;
pub mod tally;
pub mod tell;

pub use codes::Codes;
pub use failures::Failures;
use line::Lines;
use page::{Out, Round, STDOUT};
use plan::Plan;
use statement::{Act, Refusal, Statement, Value, Values};
use std::fmt;

// A script: the name that it was asked for by, and what stands in it.
#[derive(Clone, Copy)]
pub struct Script<'a> {
    pub name: &'a [u8],
    pub text: &'a [u8],
}

// What is seen of a bus: its lines, whether the controller may start and nothing is submitted, which units pull BAV for a request, and
// whether any holds one.
#[derive(Clone, Copy)]
pub struct View {
    pub lines: Lines,
    pub is_free: bool,
    pub asking: [bool; 16],
    pub is_requesting: bool,
}

// What the bus does for a statement, how often it has done so and does so at the most, what ends it before that, and which part of a `do` it
// is.
#[derive(Clone, Copy)]
pub struct Work {
    pub act: Act,
    pub done: u64,
    pub most: u64,
    pub until: Option<Until>,
    pub part: Option<Part>,
}

// What a run waits for: the submitted command has ended, no party has anything to do, the bus is free.
#[derive(Clone, Copy, Debug, PartialEq, Eq)]
pub enum Until {
    Ended,
    Quiet,
    Free,
}

// The parts of a `do`: until the bus is free, the command is submitted, until it has ended.
#[derive(Clone, Copy, Debug, PartialEq, Eq)]
pub enum Part {
    Waits,
    Submits,
    Runs,
}

// What the next statement must expect.
#[derive(Clone, Copy, Debug, PartialEq, Eq)]
pub enum Awaited {
    Refusal(Refusal),
    // A run did not come to the end that it was to come to.
    Unreached,
}

// The same with the line that it came of: its number, and where it begins.
#[derive(Clone, Copy)]
pub struct Pending {
    pub what: Awaited,
    pub line: u64,
    pub start: usize,
}

#[derive(Clone, Copy)]
pub struct Desk {
    // The place in the script, and the parties that there are.
    pub plan: Plan,
    // The statement that is under way, and whether it is; what the bus does for it. An Option would be opened wherever the statement is read,
    // and only a statement under way is read.
    pub statement: Statement,
    pub is_under_way: bool,
    pub work: Work,
    // The rounds so far, and those of the last run.
    pub round: u64,
    pub ran: u64,
    // Whether the last run came to the end that it was to come to.
    pub is_reached: bool,
    // Whether requests are acknowledged as they are handed over.
    pub acknowledges: bool,
    // Whether a submitted command has not ended; the length of its data, and how much of the response buffer is lent.
    pub is_submitted: bool,
    pub length: usize,
    pub lent: usize,
    // The status of the last command that ended and how many data bytes it brought, the last request and how many there were, the last
    // refusal.
    pub status: Option<u8>,
    pub received: usize,
    pub request: Option<u8>,
    pub requests: u64,
    pub refusal: Option<Refusal>,
    // How many bytes were last taken.
    pub taken: usize,
    // Whether a host has raised a request by itself before the present round.
    pub has_raised: bool,
    // For how many rounds more lines are held low from outside, and which.
    pub hold: u64,
    pub held_low: Lines,
    // What is seen of the bus, and how many bytes the entries of its ring are.
    pub view: View,
    pub entries: usize,
    // Expectations that held, and failures.
    pub held: u64,
    pub failed: u64,
    pub pending: Option<Pending>,
    // Where is said what happens; where the dump goes, and whether it or the screens could not be written.
    pub out: Out,
    pub dump: Out,
    pub is_lost: bool,
    // Whether frames are pictured.
    pub is_pictured: bool,
}

// No line is pulled.
pub const RELEASED: Lines = Lines {
    bav: false,
    hsk: false,
    nibble: 15,
};

// The second of two words between which a bar stands in a form; the first is a kind.
pub const OTHER: Value = Value::Word(1);

impl Work {
    // An act so often at the most.
    pub fn new(act: Act, most: u64) -> Work
        ensures { (result.act ≡ act) × (result.done ≡ 0) × (result.most ≡ most) }
    {
        Work {
            act,
            done: 0,
            most,
            until: None,
            part: None,
        }
    }

    // With what ends it before that.
    pub fn until(self, until: Option<Until>) -> Work {
        Work { until, ..self }
    }

    // As a part of a `do`.
    pub fn part(self, part: Part) -> Work {
        Work {
            part: Some(part),
            ..self
        }
    }
}

impl Desk {
    // The desk before the first statement of a script.
    pub fn new() -> Desk {
        Desk {
            plan: Plan::new(),
            statement: Statement::blank(),
            is_under_way: false,
            work: Work::new(Act::Controller, 0),
            round: 0,
            ran: 0,
            is_reached: false,
            acknowledges: false,
            is_submitted: false,
            length: 0,
            lent: 65535,
            status: None,
            received: 0,
            request: None,
            requests: 0,
            refusal: None,
            taken: 0,
            has_raised: false,
            hold: 0,
            held_low: RELEASED,
            view: View {
                lines: RELEASED,
                is_free: true,
                asking: [false; 16],
                is_requesting: false,
            },
            entries: 0,
            held: 0,
            failed: 0,
            pending: None,
            out: STDOUT,
            dump: None,
            is_lost: false,
            is_pictured: false,
        }
    }

    // A call has come to this. The next statement must expect a refusal.
    pub fn called(&mut self, outcome: Result<(), Refusal>)
        ensures { self.new.refusal ≡ result_err outcome }
    {
        self.refusal = outcome.err();
        if let Some(number) = self.refusal {
            self.awaits(Awaited::Refusal(number));
        }
    }

    // The next statement must expect this.
    pub fn awaits(&mut self, what: Awaited)
        ensures expected { IsSome self.new.pending }
        ensures refusal { self.new.refusal ≡ self.old.refusal }
    {
        self.pending = Some(Pending {
            what,
            line: self.plan.line,
            start: self.plan.start,
        });
    }

    // Says words, perhaps with values among them.
    pub fn say(&self, words: impl fmt::Display + Drop) {
        page::tell(self.out, words);
    }

    // The same with the round before them.
    pub fn note(&self, words: impl fmt::Display + Drop) {
        page::tell(self.out, format_args!("{}{words}", Round(self.round)));
    }
}

// The levels that a statement names behind its first value.
pub fn levels(values: &Values) -> Lines {
    Lines {
        bav: values.has(1),
        hsk: values.has(2),
        nibble: u8::try_from(values.number_or(3, 15)).unwrap_or(15),
    }
}

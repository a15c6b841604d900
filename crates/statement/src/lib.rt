// A statement of a script, and what a bus tells of itself in turn: what those who read scripts and those who run the bus have in common.

#![tactic(auto)]

mod form;
mod values;

pub use form::Form;
use line::Lines;
pub use values::{Value, Values};

// Its form, none for a line without a statement; its values, and how many bytes it has.
#[derive(Clone, Copy)]
pub struct Statement {
    pub form: Option<Form>,
    pub values: Values,
    pub bytes: usize,
}

impl Statement {
    // No statement.
    pub fn blank() -> Statement {
        Statement {
            form: None,
            values: Values::none(),
            bytes: 0,
        }
    }

    // Whether it has this form.
    pub fn is(&self, form: Form) -> bool {
        self.form == Some(form)
    }
}

// What the bus may do for a statement: a call or a step of the unit at a place, the same of the controller, a round, a unit more.
#[derive(Clone, Copy, Debug, PartialEq, Eq)]
pub enum Act {
    Unit(usize),
    Controller,
    Round,
    OneMore,
}

// Such an act: the levels that are seen, a bit for each host that is busy, how long the data of the command is, and how much of the response
// buffer is lent.
#[derive(Clone, Copy)]
pub struct Doing {
    pub act: Act,
    pub seen: Lines,
    pub busy: u32,
    pub length: usize,
    pub lent: usize,
}

// The number of a refusal (document 01).
pub type Refusal = u32;

// What an act has come to.
#[derive(Clone, Copy)]
pub enum Told {
    // A call, or a step of a unit.
    Called(Result<(), Refusal>),
    // So many bytes were taken.
    Taken(usize),
    // A request was raised that was not held before.
    Raised,
    // A step of the controller.
    Stepped(Stepped),
}

// What a step of the controller has come to: a frame that has begun or ended, and what the application is told.
#[derive(Clone, Copy)]
pub struct Stepped {
    pub frame: Option<Framed>,
    pub event: Result<Option<Event>, Refusal>,
}

#[derive(Clone, Copy)]
pub enum Framed {
    // The application's frame begins.
    Begun {
        code: u8,
        command: u8,
        buffer: u16,
        length: u16,
    },
    // A service frame begins: the turn of a code, which is polled, or whose last request is not acknowledged.
    Poll(u8),
    Null(u8),
    // A service frame has ended with a status.
    PollEnded(u8, u8),
    NullEnded(u8),
}

#[derive(Clone, Copy)]
pub enum Event {
    // Its command ended with a status, and so many data bytes came with it.
    Ended(u8, u16),
    // The request of a code is handed over.
    Handed(u8),
}

// The most bytes of a statement.
pub const MOST: usize = 65536;

// What is lent beside the bus.
#[derive(Drop)]
pub struct Store {
    // Those of a statement, and those of the command that was submitted last.
    pub statement: [u8; MOST],
    pub command: [u8; MOST],
    // The answers of stand-ins, and what these have heard.
    pub answers: [[u8; 1024]; 4],
    pub heard: [[u8; 1024]; 4],
    // Bytes that were taken.
    pub taken: [u8; 256],
    // The entries of the ring, two bytes each: a code and a mark.
    pub ring: [u8; 32],
    // The marks of the last round.
    pub marks: [u8; 22],
}

impl Store {
    pub fn new() -> Store {
        Store {
            statement: [0; MOST],
            command: [0; MOST],
            answers: [[0; 1024]; 4],
            heard: [[0; 1024]; 4],
            taken: [0; 256],
            ring: [0; 32],
            marks: [0; 22],
        }
    }
}

// How many bytes the bus lends for each unit, and where among them the cells of a screen begin.
pub const UNIT_MEMORY: usize = 2432;

pub const CELLS: usize = 512;

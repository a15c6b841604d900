// Stand-ins for units: each hears commands to its code and answers as a script says, through the listener and the sender that every party
// has.

#![tactic(auto)]

ghost use Rattle.std.specs.Prelude.{◌≡◌, ◌≢◌, ◌≤◌, Some, false};

use line::{Lines, Listener, Sender};
use statement::Values;

#[derive(Clone, Copy)]
pub struct StandIn {
    // Its code, none for every code.
    code: Option<u8>,
    act: Act,
    // The nibbles that it has heard of a command and placed of its answer, and those of the last command that it has heard.
    heard: usize,
    sent: usize,
    last: usize,
    // For how many rounds more it holds HSK longer than it must.
    holds: u64,
    manner: Manner,
    ghost heard_code: { code ≢ Some 0 },
}

// What it does: it hears a command, it waits so many rounds before its answer, it answers, it is silent.
#[derive(Clone, Copy)]
enum Act {
    Hearing(Listener),
    Pausing(u64),
    Answering(Sender),
    Silent,
}

// How it answers: so many bytes, cut after so many nibbles, so many rounds after the command; at which nibble, of command and answer
// together, it holds HSK, and for how many rounds more than it must.
#[derive(Clone, Copy)]
struct Manner {
    length: usize,
    cut: usize,
    after: u64,
    at: usize,
    slow: u64,
}

// The levels left by other parties and stand-ins.
pub fn levels(stand_ins: &[StandIn], others: Lines) -> Lines {
    stand_ins
        .iter()
        .fold(others, |l, s| line::wired(l, s.pulls()))
}

impl StandIn {
    // One with a code, which hears every command where that is 0 or none, and which answers nothing yet.
    pub fn new(code: Option<u8>) -> StandIn {
        StandIn {
            code: code.filter(|c| *c != 0),
            act: Act::Hearing(Listener::Ready),
            heard: 0,
            sent: 0,
            last: 0,
            holds: 0,
            manner: Manner {
                length: 0,
                cut: 0,
                after: 0,
                at: 0,
                slow: 0,
            },
        }
    }

    pub fn code(&self) -> Option<u8>
        ensures { result ≢ Some 0 }
    {
        self.code
    }

    // What it answers from now on: so many bytes, with the values of the statement. What it has heard is forgotten.
    pub fn answer(&mut self, values: &Values, length: usize) {
        let slow = values.number_or(3, 0);
        self.manner = Manner {
            length,
            cut: values.number_or(2, 65535) as usize,
            after: values.number_or(1, 2),
            at: values.number_or(4, 0) as usize,
            slow,
        };
        self.holds = slow;
        self.last = 0;
    }

    // How many whole bytes of its present or last command it has heard and noted.
    pub fn heard(&self) -> usize
        ensures { result ≤ 1024 }
    {
        let nibbles = if self.heard == 0 {
            self.last
        } else {
            self.heard
        };
        (nibbles / 2).min(1024)
    }

    // What it pulls, which is never BAV.
    pub fn pulls(&self) -> Lines
        ensures { result.bav ≡ false }
    {
        let (hsk, nibble) = match self.act {
            Act::Hearing(ear) => (ear.hsk(), 15),
            Act::Answering(sender) => (sender.hsk(), sender.nibble()),
            Act::Pausing(_) | Act::Silent => (false, 15),
        };
        Lines {
            bav: false,
            hsk,
            nibble,
        }
    }

    // A round: the bytes of its answer, and those that it has heard. BAV seen high is looked at before everything else: it is ready for the
    // next command.
    pub fn step(&mut self, seen: Lines, answer: &[u8; 1024], heard: &mut [u8; 1024]) {
        if !seen.bav {
            self.release();
        } else if self.is_slow() {
            self.holds = self.holds.saturating_sub(1);
        } else {
            match self.act {
                Act::Hearing(ear) => self.hear(ear, seen, heard),
                Act::Pausing(rounds) if 1 < rounds => self.act = Act::Pausing(rounds - 1),
                Act::Pausing(_) | Act::Answering(Sender::Next) => self.place(answer),
                Act::Answering(sender) => self.act = Act::Answering(sender.step(seen.hsk, 15)),
                Act::Silent => {}
            }
        }
    }

    // Whether it holds HSK longer than it must.
    fn is_slow(&self) -> bool {
        let pulls = matches!(
            self.act,
            Act::Hearing(Listener::Holding) | Act::Answering(Sender::Placed(_))
        );
        pulls & (0 < self.holds) & (self.heard.saturating_add(self.sent) == self.manner.at)
    }

    fn release(&mut self) {
        if 0 < self.heard {
            self.last = self.heard;
        }
        self.act = Act::Hearing(Listener::Ready);
        self.heard = 0;
        self.sent = 0;
        self.holds = self.manner.slow;
    }

    // A round of the command. Behind the two nibbles of another code it sits out.
    fn hear(&mut self, ear: Listener, seen: Lines, heard: &mut [u8; 1024]) {
        let n = self.heard;
        if (n == 2) & self.is_other(heard[0]) {
            self.act = Act::Silent;
            return;
        }
        if ear.taken(seen.hsk) {
            self.heard = n.saturating_add(1);
            note(heard, n, seen.nibble);
        }
        let next = ear.step(seen.hsk, false);
        self.act = if next.is_ready() & is_whole(heard, n) {
            Act::Pausing(self.manner.after)
        } else {
            Act::Hearing(next)
        };
    }

    // Whether a command's code is another than its own, where neither is every code.
    fn is_other(&self, code: u8) -> bool {
        (code != 0) & self.code.is_some_and(|own| own != code)
    }

    // It places the next nibble of its answer, if there is one.
    fn place(&mut self, answer: &[u8; 1024]) {
        let n = self.sent;
        let is_there = (n / 2 < self.manner.length) & (n < self.manner.cut);
        match answer.get(n / 2) {
            Some(byte) if is_there => {
                self.sent = n.saturating_add(1);
                self.act = Act::Answering(Sender::Placed(field::nibble(*byte, n)));
            }
            _ => self.act = Act::Silent,
        }
    }
}

// Whether so many nibbles are a whole command.
fn is_whole(heard: &[u8; 1024], n: usize) -> bool {
    let length = field::value_of(heard[7], heard[8]) as usize;
    (18 <= n) & (n / 2 == 9 + length)
}

// Nibble n of a command is noted, the low nibble of a byte first.
fn note(heard: &mut [u8; 1024], n: usize, nibble: u8) {
    if let Some(byte) = heard.get_mut(n / 2) {
        *byte = if n % 2 == 0 {
            field::byte_of(nibble, 0)
        } else {
            field::byte_of(*byte, nibble)
        };
    }
}

// The lines, and the two machines that move one nibble after another over them: the sender and the listener. Both ends of the
// bus use these as they are.

#![tactic(auto)]

ghost use Rattle.std.specs.Prelude.{◌≡◌};
ghost use Rattle.line.specs.Line.{wired, wired_nibble, send_of, sent_of, sender_hsk, sender_nibble, hear_of, taken_of, is_ready, listener_hsk};

// What a party sees on the lines, or does to them. A line is low if any party pulls it: true is low, or pulled. A released
// nibble reads 15.
#[derive(Clone, Copy, Debug, PartialEq, Eq)]
pub struct Lines {
    pub bav: bool,
    pub hsk: bool,
    pub nibble: u8,
}

// The levels that two parties' pulls leave: a line is low if any of them pulls it.
pub fn wired(a: Lines, b: Lines) -> Lines
    ensures { result ≡ wired a b }
{
    Lines {
        bav: a.bav || b.bav,
        hsk: a.hsk || b.hsk,
        nibble: wired_nibble(a.nibble, b.nibble),
    }
}

// A data line is high only where both leave it high.
fn wired_nibble(a: u8, b: u8) -> u8
    ensures { result ≡ wired_nibble a b }
{
    (a & b) % 16
}

// A sender: before it places its next nibble, after it placed one, and while it keeps one with HSK released.
#[derive(Clone, Copy, Debug, PartialEq, Eq)]
pub enum Sender {
    Next,
    Placed(u8),
    Kept(u8),
}

impl Sender {
    // A round in which HSK is seen low or high. The nibble n is the one to place next.
    pub fn step(self, low: bool, n: u8) -> Sender
        ensures { result ≡ send_of self low n }
    {
        match self {
            Sender::Next => Sender::Placed(n),
            Sender::Placed(m) => Sender::Kept(m),
            Sender::Kept(m) => if low { Sender::Kept(m) } else { Sender::Next },
        }
    }

    // Whether its nibble is done in such a round: only now it counts as sent.
    pub fn sent(self, low: bool) -> bool
        ensures { result ≡ sent_of self low }
    {
        matches!(self, Sender::Kept(_)) && !low
    }

    // Whether it pulls HSK, and what it leaves on the data lines.
    pub fn hsk(self) -> bool
        ensures { result ≡ sender_hsk self }
    {
        matches!(self, Sender::Placed(_))
    }

    pub fn nibble(self) -> u8
        ensures { result ≡ sender_nibble self }
    {
        match self {
            Sender::Next => 15,
            Sender::Placed(m) | Sender::Kept(m) => m,
        }
    }
}

// A listener: ready for a nibble, holding HSK low after it took one, and waiting to see HSK high.
#[derive(Clone, Copy, Debug, PartialEq, Eq)]
pub enum Listener {
    Ready,
    Holding,
    Waiting,
}

impl Listener {
    // A round in which HSK is seen low or high and the host is busy or not.
    pub fn step(self, low: bool, busy: bool) -> Listener
        ensures { result ≡ hear_of self low busy }
    {
        match self {
            Listener::Ready if low => Listener::Holding,
            Listener::Holding if !busy => Listener::Waiting,
            Listener::Waiting if !low => Listener::Ready,
            _ => self,
        }
    }

    // Whether it takes the nibble that it sees in such a round.
    pub fn taken(self, low: bool) -> bool
        ensures { result ≡ taken_of self low }
    {
        match self {
            Listener::Ready => low,
            _ => false,
        }
    }

    // Whether it is ready for the next nibble.
    pub fn is_ready(self) -> bool
        ensures { result ≡ is_ready self }
    {
        matches!(self, Listener::Ready)
    }

    // Whether it pulls HSK.
    pub fn hsk(self) -> bool
        ensures { result ≡ listener_hsk self }
    {
        matches!(self, Listener::Holding)
    }
}

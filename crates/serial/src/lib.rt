// The state of a unit, what a command's effects and the end of its response do to it, and the verdict on a command: both together.
// There are no lines in it, and no kind of unit.

#![tactic(auto)]

ghost use Rattle.std.specs.Prelude.{◌≡◌, []};
ghost use Rattle.screen.specs.Text.{cleared};
ghost use Rattle.serial.specs.Serial.{new_serial, applied, output_after, finished};
ghost use Rattle.serial.specs.Verdict.{says, status, poll_by};

use queue::Queue;
use screen::Screen;

// What an open unit is open for.
#[derive(Clone, Copy, Debug, PartialEq, Eq)]
pub enum Mode {
    Input,
    Output,
    Update,
}

// Closed, or open for a mode with an accepted length.
#[derive(Clone, Copy, Debug, PartialEq, Eq)]
pub enum Opening {
    Closed,
    OpenFor(Mode, u8),
}

// A unit's state besides its lines. The bytes of its queues stand in memory that its caller lends.
#[derive(Clone, Copy)]
pub struct Serial {
    pub opening: Opening,
    pub enabled: bool,
    pub requesting: bool,
    pub input: Queue,
    pub output: Queue,
    // Of a video unit; in all others it stays as it is.
    pub screen: Screen,
}

// The response to a command, fixed when its last nibble is taken.
#[derive(Clone, Copy)]
pub enum Reply {
    // No response.
    Silent,
    // This status and no data.
    Status(u8),
    // Status 00 with four bytes: the accepted length, record 0.
    Opened(u8),
    // Status 00 with so many of the input queue's oldest bytes, which leave it when the response is done.
    Bytes(u16),
    // Status 00 with so many bytes of the cursor's row and column, which is asked for no longer when the response is done.
    Address(u8, u8, u8),
    // Status 00 to a poll. The request is cleared when the response is done.
    Polled,
}

// What a command does to the unit when its last nibble is taken.
#[derive(Clone, Copy)]
pub enum Effect {
    Keeps,
    Opens(Mode, u8),
    Closes,
    Resets,
    Enables,
    Disables,
    // Its data goes into the output queue.
    Stores,
    // Opens a video unit, and clears its screen.
    OpensScreen(Mode, u8),
    // Closes a video unit, and clears its screen.
    ResetsScreen,
    // Its data goes to the screen.
    Shows,
}

// What a unit answers to a command, and what the command does to it.
#[derive(Clone, Copy)]
pub struct Verdict {
    pub reply: Reply,
    pub effect: Effect,
}

impl Serial {
    // A new unit: closed, not enabled, its queues empty, its screen as open and reset leave one.
    pub fn new() -> Serial
        ensures { result ≡ new_serial }
    {
        Serial {
            opening: Opening::Closed,
            enabled: false,
            requesting: false,
            input: Queue::new(),
            output: Queue::new(),
            screen: Screen::new(),
        }
    }

    // The state after an effect with this data, whose bytes go into the memory for what is written to it.
    pub fn after(self, e: Effect, data: &[u8], output: &mut [u8]) -> Serial
        ensures { (result ≡ applied self e «data».now) × (output.new ≡ output_after self e «data».now output.old) }
    {
        match e {
            Effect::Keeps => self,
            Effect::Opens(m, accepted) => opened(self, m, accepted),
            Effect::Closes => closed(self),
            Effect::Resets => Serial::new(),
            Effect::Enables => enabled(self),
            Effect::Disables => disabled(self),
            Effect::Stores => stored(self, data, output),
            Effect::OpensScreen(m, accepted) => opened_screen(self, m, accepted, output),
            Effect::ResetsScreen => reset_screen(output),
            Effect::Shows => shown(self, data, output),
        }
    }

    // The state when the last nibble of a reply is done.
    pub fn finish(self, r: Reply) -> Serial
        ensures { result ≡ finished self r }
    {
        match r {
            Reply::Silent | Reply::Status(_) | Reply::Opened(_) => self,
            Reply::Bytes(n) => shortened(self, n),
            Reply::Address(_, _, _) => addressed(self),
            Reply::Polled => heard(self),
        }
    }
}

fn opened(s: Serial, m: Mode, accepted: u8) -> Serial
    ensures { result ≡ applied s (Effect.Opens m accepted) [] }
{
    Serial {
        opening: Opening::OpenFor(m, accepted),
        ..s
    }
}

fn closed(s: Serial) -> Serial
    ensures { result ≡ applied s Effect.Closes [] }
{
    Serial {
        opening: Opening::Closed,
        enabled: false,
        requesting: false,
        input: Queue::new(),
        ..s
    }
}

fn enabled(s: Serial) -> Serial
    ensures { result ≡ applied s Effect.Enables [] }
{
    Serial { enabled: true, ..s }
}

fn disabled(s: Serial) -> Serial
    ensures { result ≡ applied s Effect.Disables [] }
{
    Serial {
        enabled: false,
        requesting: false,
        ..s
    }
}

fn stored(s: Serial, data: &[u8], output: &mut [u8]) -> Serial
    ensures { (result ≡ applied s Effect.Stores «data».now) × (output.new ≡ output_after s Effect.Stores «data».now output.old) }
{
    let longer = s.output.push_all(output, data);
    Serial {
        output: longer,
        ..s
    }
}

fn opened_screen(s: Serial, m: Mode, accepted: u8, output: &mut [u8]) -> Serial
    ensures { (result ≡ applied s (Effect.OpensScreen m accepted) []) × (output.new ≡ output_after s (Effect.OpensScreen m accepted) [] output.old) }
{
    text::clear(output);
    Serial {
        screen: Screen::new(),
        ..opened(s, m, accepted)
    }
}

fn reset_screen(output: &mut [u8]) -> Serial
    ensures { (result ≡ new_serial) × (output.new ≡ cleared output.old) }
{
    text::clear(output);
    Serial::new()
}

fn shown(s: Serial, data: &[u8], output: &mut [u8]) -> Serial
    ensures { (result ≡ applied s Effect.Shows «data».now) × (output.new ≡ output_after s Effect.Shows «data».now output.old) }
{
    let next = text::show(s.screen, data, output);
    Serial { screen: next, ..s }
}

fn addressed(s: Serial) -> Serial
    ensures { result ≡ finished s (Reply.Address 0 0 0) }
{
    Serial {
        screen: s.screen.answered(),
        ..s
    }
}

fn shortened(s: Serial, n: u16) -> Serial
    ensures { result ≡ finished s (Reply.Bytes n) }
{
    Serial {
        input: s.input.drop(usize::from(n)),
        ..s
    }
}

fn heard(s: Serial) -> Serial
    ensures { result ≡ finished s Reply.Polled }
{
    Serial {
        requesting: false,
        ..s
    }
}

// A reply with an effect.
pub fn says(reply: Reply, effect: Effect) -> Verdict
    ensures { result ≡ says reply effect }
{
    Verdict { reply, effect }
}

// A status with no data, which changes nothing.
pub fn status(number: u8) -> Verdict
    ensures { result ≡ status number }
{
    says(Reply::Status(number), Effect::Keeps)
}

// Check 11, the poll: of every kind of unit.
pub fn poll(s: Serial) -> Verdict
    ensures { result ≡ poll_by s.enabled s.requesting }
{
    if s.enabled && s.requesting {
        return says(Reply::Polled, Effect::Keeps);
    }
    status(0x0A)
}

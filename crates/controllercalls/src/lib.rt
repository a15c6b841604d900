// The calls of the application that a script makes, steps of the controller by hand, and looks at it.

#![tactic(auto)]

mod told;

ghost use Rattle.std.specs.Prelude.{◌≡◌, ◌≤◌, IfErr, take};

use controller::Controller;
use frame::Stage;
use header::Command;
use ring::Ring;
use statement::{Doing, Form, Refusal, Statement, Stepped, Store, Value, Values};
pub use told::stepped;

// What the statement says of the controller.
pub fn act(
    c: &mut Controller,
    s: &Statement,
    store: &mut Store,
    response: &mut [u8; 65536],
) -> Result<(), Refusal> {
    match s.form {
        Some(Form::Controller) => make(c, s.values.number_or(0, 200)),
        Some(Form::Restart) => make(c, c.timeout as u64),
        Some(Form::Submit | Form::Force | Form::Do) => submit(c, s, store, response),
        Some(Form::Acknowledge) => acknowledge(c, (s.values.number_or(0, 0) % 256) as u8),
        _ => Ok(()),
    }
}

// The application acknowledges the request of a code.
pub fn acknowledge(c: &mut Controller, code: u8) -> Result<(), Refusal>
    ensures { IfErr result (λ e. (e ≡ 8) × (c.new ≡ c.old)) }
{
    Ok(application::acknowledge(c, code)?)
}

// A step by hand, with the data of the statement, or of the command if it has none; what this comes to.
pub fn step(
    c: &mut Controller,
    s: &Statement,
    doing: &Doing,
    store: &Store,
    response: &mut [u8],
) -> Stepped {
    let data = if s.values.has(7) {
        word::front(&store.statement, s.bytes)
    } else {
        // A forced command may be longer than what is lent: its length comes round behind 65,536.
        data(store, doing.length % 65537)
    };
    let lent = s.values.number_or(6, doing.lent as u64) as usize;
    let n = lent.min(response.len());
    let before = c.stage;
    let outcome = controller::step(c, doing.seen, s.values.has(4), data, &mut response[..n]);
    stepped(before, c, outcome)
}

// The data of the command that was submitted last, so many bytes.
pub fn data(store: &Store, length: usize) -> &[u8]
    ensures { result.now ≡ take length store.now.command }
{
    word::front(&store.command, length)
}

// What an expectation finds of the controller: what it pulls, or all that the application may look at.
pub fn looks(c: &Controller, form: Option<Form>) -> Values {
    let mut found = Values::none();
    if form == Some(Form::ExpectPulls) {
        let pulls = controller::pulls(*c);
        found.set(0, Some(Value::Word(1)));
        found.set_flag(1, pulls.bav);
        found.set_flag(2, pulls.hsk);
        found.set_number(3, pulls.nibble as u64);
    } else {
        let looks = application::look(*c);
        found.set_flag(0, looks.may_start);
        found.set_flag(1, looks.submitted);
    }
    found
}

// The entries of the ring, noted as two bytes each: its code and its mark. How many bytes these are.
pub fn entries(ring: &Ring, noted: &mut [u8; 32]) -> usize
    ensures { result ≤ 32 }
{
    for (i, pair) in noted.chunks_exact_mut(2).enumerate() {
        let e = ring.entry(i);
        pair.copy_from_slice(&[e.code, e.marked as u8]);
    }
    2 * ring.len()
}

// A new controller with a time-out, or the one that there was.
fn make(c: &mut Controller, timeout: u64) -> Result<(), Refusal> {
    let made = application::make((timeout % 4294967296) as u32);
    made.outcome?;
    *c = made.controller;
    Ok(())
}

// Submits the command of the statement, or forces it on the controller past the checks of the application. Its bytes are kept for its
// frame, and the response buffer is filled with EE.
fn submit(
    c: &mut Controller,
    s: &Statement,
    store: &mut Store,
    response: &mut [u8; 65536],
) -> Result<(), Refusal> {
    check(c, s, store, response)?;
    keep(s, store);
    response.fill(0xEE);
    let length = (length_of(s) % 65536) as u16;
    let frame = frame::submitted(command_of(&s.values), length);
    *c = controller::with_stage(*c, Stage::Waiting(frame));
    Ok(())
}

// Why a command is refused. One that is forced is refused only while another runs.
fn check(c: &Controller, s: &Statement, store: &Store, response: &[u8]) -> Result<(), Refusal> {
    if s.is(Form::Force) {
        return if controller::is_idle(c.stage) {
            Ok(())
        } else {
            Err(1)
        };
    }
    let lent = s.values.number_or(5, 65535) as usize;
    let mut submitted = *c;
    application::submit(
        &mut submitted,
        command_of(&s.values),
        word::front(&store.statement, length_of(s)),
        word::front(response, lent),
    )?;
    Ok(())
}

// The command of a statement. Where it gives no buffer length, this is 4 for an open in words.
fn command_of(values: &Values) -> Command {
    let buffer = if values.front() == 3 { 4 } else { 0 };
    Command {
        device: (values.number_or(0, 0) % 256) as u8,
        command: (values.number_or(1, 0) % 256) as u8,
        logical_unit: (values.number_or(2, 0) % 256) as u8,
        record_number: (values.number_or(3, 0) % 65536) as u16,
        buffer_length: (values.number_or(4, buffer) % 65536) as u16,
    }
}

// How many bytes of data the command has.
fn length_of(s: &Statement) -> usize {
    s.bytes.saturating_add(s.values.front())
}

// The data of a command: for an open in words its length and attributes, then the bytes of the statement. The last bytes of a forced
// command that is too long go where the first stand-in's answer stands.
fn keep(s: &Statement, store: &mut Store) {
    let Store {
        statement,
        command,
        answers,
        ..
    } = store;
    let mut at = 0usize;
    if let Some(attributes) = s.values.attributes() {
        let length = (s.values.number_or(11, 0) % 65536) as u16;
        let [low, high] = length.to_le_bytes();
        command[..3].copy_from_slice(&[low, high, attributes]);
        at = 3;
    }
    let bytes = word::front(statement, s.bytes);
    let room = &mut command[at..];
    let n = bytes.len().min(room.len());
    room[..n].copy_from_slice(&bytes[..n]);
    for (to, b) in answers[0].iter_mut().zip(&bytes[n..]) {
        *to = *b;
    }
}

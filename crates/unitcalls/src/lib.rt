// The calls of a unit's host that a script makes, steps of a unit by hand, and looks at it.

#![tactic(auto)]

ghost use Rattle.std.specs.Prelude.{◌≡◌, IfErr};

use phase::Phase;
use screen::{Screen, Sequence};
use serial::{Mode, Opening};
use statement::{Doing, Form, Refusal, Statement, Store, Told, Value, Values};
use unit::Unit;

// What the statement says of the unit that acts, at the levels that it names, with the unit's memory; what this comes to. In a run its host
// raises a request by itself.
pub fn act(
    u: &mut Unit,
    s: &Statement,
    doing: &Doing,
    store: &mut Store,
    memory: &mut [u8],
) -> Told {
    match s.form {
        Some(Form::Feed) => {
            let n = s.bytes.min(store.statement.len());
            Told::Called(feed(u, &store.statement[..n], memory))
        }
        Some(Form::Take) => Told::Taken(take(u, s.values.number_or(1, 256), store, memory)),
        Some(Form::Restart) => Told::Called(restart(u, memory)),
        Some(Form::Step) => Told::Called(step(u, &s.values, doing, memory)),
        Some(Form::Raise) if s.values.has(1) => Told::Called(Ok(())),
        Some(
            Form::Raise
            | Form::Do
            | Form::RunUntilEnded
            | Form::RunUntilQuiet
            | Form::RunUntilFree
            | Form::Run,
        ) => raise(u),
        _ => Told::Called(Ok(())),
    }
}

// The unit of the statement, if its settings are in range.
pub fn make(values: &Values) -> Result<Unit, Refusal>
    ensures { IfErr result (λ e. e ≡ 5) }
{
    let own = (values.number_or(0, 0) % 256) as u8;
    let retry = (values.number_or(1, 20) % 4294967296) as u32;
    Ok(host::make(own, retry)?)
}

// What an expectation finds of a unit: its screen, what it pulls, its phase, its queues, or all that its host may look at.
pub fn looks(u: &Unit, form: Option<Form>) -> Values {
    let looks = host::look(*u);
    let (input, output) = (looks.input as u64, looks.output as u64);
    let mut found = Values::none();
    found.set_number(0, u.own as u64);
    match form {
        Some(Form::ShowScreen | Form::ExpectCursor) => return on_screen(&u.serial.screen),
        Some(Form::ExpectPulls) => {
            let pulls = unit::pulls(*u);
            found.set_flag(1, pulls.bav);
            found.set_flag(2, pulls.hsk);
            found.set_number(3, pulls.nibble as u64);
        }
        Some(Form::ExpectPhase) => found.set(1, Some(Value::Word(phase(u.phase)))),
        Some(Form::ExpectQueued) => {
            found.set_number(1, input);
            found.set_number(2, output);
        }
        _ => {
            opening(looks.opening, &mut found);
            found.set_number(3, input);
            found.set_number(4, output);
            found.set_flag(5, looks.enabled);
            found.set_flag(6, looks.requesting);
        }
    }
    found
}

// The parts of a unit's memory: command buffer, input queue, and what is written to it, a queue or the cells of a screen.
#[derive(Drop)]
struct Parts<'a> {
    buffer: &'a mut [u8; 256],
    input: &'a mut [u8; 256],
    output: &'a mut [u8],
}

fn split(memory: &mut [u8]) -> Option<Parts<'_>> {
    let (buffer, rest) = memory.split_first_chunk_mut::<256>()?;
    let (input, output) = rest.split_first_chunk_mut::<256>()?;
    Some(Parts {
        buffer,
        input,
        output,
    })
}

// The host feeds bytes. Once one is refused, so are those behind it.
fn feed(u: &mut Unit, bytes: &[u8], memory: &mut [u8]) -> Result<(), Refusal> {
    let Some(parts) = split(memory) else {
        return Ok(());
    };
    for b in bytes {
        *u = host::feed(*u, parts.input, *b)?;
    }
    Ok(())
}

// It takes up to so many bytes, which are noted; how many there were.
fn take(u: &mut Unit, most: u64, store: &mut Store, memory: &mut [u8]) -> usize {
    let mut n = 0usize;
    let Some(parts) = split(memory) else {
        return n;
    };
    let Some(output) = parts.output.first_chunk::<256>() else {
        return n;
    };
    for place in store.taken.iter_mut().take(most as usize) {
        let Some((b, v)) = host::take(*u, output) else {
            return n;
        };
        *place = b;
        *u = v;
        n = n.saturating_add(1);
    }
    n
}

// It raises a request. Raising again changes nothing.
fn raise(u: &mut Unit) -> Told {
    match host::raise(*u) {
        Ok(v) => {
            let is_held = u.serial.requesting;
            *u = v;
            if is_held {
                Told::Called(Ok(()))
            } else {
                Told::Raised
            }
        }
        Err(e) => Told::Called(Err(u32::from(e))),
    }
}

// It is switched off and on: new, with the settings that it had, its memory EE.
fn restart(u: &mut Unit, memory: &mut [u8]) -> Result<(), Refusal> {
    memory.fill(0xEE);
    *u = host::make(u.own, u.retry as u32)?;
    Ok(())
}

// A step by hand, with so much lent of the command buffer and for what is written to the unit, all of it where there is no more.
fn step(u: &mut Unit, values: &Values, doing: &Doing, memory: &mut [u8]) -> Result<(), Refusal> {
    let Some(
        Parts {
            buffer,
            input,
            output,
        },
    ) = split(memory)
    else {
        return Ok(());
    };
    let lent = values.number_or(6, 65535) as usize;
    let buffer = &mut buffer[..lent.min(256)];
    let n = lent.min(output.len());
    *u = unit::step(
        *u,
        doing.seen,
        values.has(4),
        buffer,
        input,
        &mut output[..n],
    )?;
    Ok(())
}

// Row and column of the cursor, and what is so: scroll mode, wrap, top and bottom line protected, an address that is pending, a sequence
// that is being read.
fn on_screen(s: &Screen) -> Values {
    let mut found = Values::none();
    found.set_number(0, s.row as u64);
    found.set_number(1, s.column as u64);
    found.set_flag(2, s.scrolls);
    found.set_flag(3, s.wraps);
    found.set_flag(4, s.top);
    found.set_flag(5, s.bottom);
    found.set_flag(6, s.asked);
    found.set_flag(7, !matches!(s.sequence, Sequence::Plain));
    found
}

// The word for a phase, by its place in the form.
fn phase(phase: Phase) -> u64 {
    match phase {
        Phase::Idle => 0,
        Phase::Selecting(_, _, _) => 1,
        Phase::Receiving(_, _) => 2,
        Phase::Responding(_, _, _, _) => 3,
        Phase::SittingOut(_) => 4,
    }
}

// Whether it is open, as a word of the form, and for which length.
fn opening(opening: Opening, found: &mut Values) {
    let word = match opening {
        Opening::Closed => 0,
        Opening::OpenFor(mode, accepted) => {
            found.set_number(2, accepted as u64);
            match mode {
                Mode::Input => 1,
                Mode::Output => 2,
                Mode::Update => 3,
            }
        }
    };
    found.set(1, Some(Value::Word(word)));
}

// What is noted and said of what the bus did.
use crate::Rows;
use desk::{Desk, View, tell};
use line::Lines;
use page::{Command, Status};
use statement::{Act, Doing, Event, Form, Framed, Refusal, Stepped, Store, Told};

// What an act of the bus came to.
pub fn acted(
    desk: &mut Desk,
    doing: &Doing,
    told: Told,
    rows: &mut Rows,
    store: &mut Store,
    response: &[u8],
) {
    if let (Act::Unit(i), Act::Round) = (doing.act, desk.work.act) {
        by_itself(desk, i, told, rows, store);
        return;
    }
    desk.work.done = desk.work.done.saturating_add(1);
    match doing.act {
        Act::Round => round(desk, doing.seen, told, rows, store, response),
        Act::Controller => of_controller(desk, told, rows, response),
        Act::OneMore => one_more(desk, told),
        Act::Unit(i) => of_unit(desk, i, told, rows, store),
    }
}

// Whether a call was refused.
fn outcome(told: Told) -> Result<(), Refusal> {
    match told {
        Told::Called(outcome) => outcome,
        _ => Ok(()),
    }
}

// One unit more, if its settings are in range.
fn one_more(desk: &mut Desk, told: Told) {
    desk.called(outcome(told));
    let values = desk.statement.values;
    desk.plan.add_unit(&values);
}

// The unit at a place has acted for the statement.
fn of_unit(desk: &mut Desk, i: usize, told: Told, rows: &mut Rows, store: &Store) {
    match desk.statement.form {
        Some(Form::Feed) => desk.called(outcome(told)),
        Some(Form::Take) => {
            desk.taken = match told {
                Told::Taken(n) => n,
                _ => 0,
            };
        }
        Some(Form::Raise) => match desk.statement.values.number(1) {
            Some(every) => rows.hosts.raise(i, desk.round, every),
            None => raised(desk, i, told, rows, store),
        },
        Some(Form::Step) => stepped(desk, told),
        _ => {}
    }
}

// A request is new, was held already, or is refused.
fn raised(desk: &mut Desk, i: usize, told: Told, rows: &mut Rows, store: &Store) {
    let Told::Raised = told else {
        desk.called(outcome(told));
        return;
    };
    let code = desk.plan.units.all().get(i).copied().unwrap_or(0);
    rows.hosts.waiting(i, tell::ahead(&store.ring, code));
    desk.note(format_args!("{code} holds a request\n"));
}

// A request of a host that raises by itself. A refusal before it in the same run stands.
fn by_itself(desk: &mut Desk, i: usize, told: Told, rows: &mut Rows, store: &Store) {
    let before = desk.refusal;
    raised(desk, i, told, rows, store);
    desk.has_raised = true;
    if outcome(told).is_ok() {
        desk.refusal = before;
    } else {
        tell::refusal(desk, Form::Raise);
    }
}

// A step by hand counts as a round.
fn stepped(desk: &mut Desk, told: Told) {
    desk.called(outcome(told));
    desk.round = desk.round.saturating_add(1);
    tell::refusal(desk, Form::Step);
}

// The controller has acted for the statement.
fn of_controller(desk: &mut Desk, told: Told, rows: &mut Rows, response: &[u8]) {
    if let Told::Stepped(step) = told {
        desk.round = desk.round.saturating_add(1);
        desk.refusal = None;
        came_to(desk, step, rows, response);
        return;
    }
    let outcome = outcome(told);
    if outcome.is_err() {
        desk.called(outcome);
        return;
    }
    let s = desk.statement;
    match s.form {
        Some(Form::Restart) => desk.is_submitted = false,
        Some(Form::Submit | Form::Force | Form::Do) => {
            // What came of the last command is forgotten.
            desk.is_submitted = true;
            desk.length = s.bytes.saturating_add(s.values.front());
            desk.lent = usize::try_from(s.values.number_or(5, 65535)).unwrap_or(65535);
            desk.status = None;
            desk.request = None;
            desk.received = 0;
        }
        _ => {}
    }
}

// A round: one less is left in which lines are held, and stand-ins step.
fn round(
    desk: &mut Desk,
    seen: Lines,
    told: Told,
    rows: &mut Rows,
    store: &mut Store,
    response: &[u8],
) {
    desk.has_raised = false;
    desk.round = desk.round.saturating_add(1);
    desk.hold = desk.hold.saturating_sub(1);
    let there = rows.stand_ins.iter_mut().take(desk.plan.stand_ins.len());
    for ((one, answer), heard) in there.zip(&store.answers).zip(&mut store.heard) {
        one.step(seen, answer, heard);
    }
    if let Told::Stepped(step) = told {
        came_to(desk, step, rows, response);
    }
}

// What a step of the controller has come to.
fn came_to(desk: &mut Desk, step: Stepped, rows: &mut Rows, response: &[u8]) {
    if let Some(frame) = step.frame {
        framed(desk, frame, rows);
    }
    match step.event {
        Ok(Some(Event::Ended(status, received))) => finished(desk, status, received, response),
        Ok(Some(Event::Handed(code))) => handed(desk, code, rows),
        Ok(None) => {}
        Err(number) => {
            desk.called(Err(number));
            tell::refusal(desk, Form::Run);
        }
    }
}

// A frame begins, or a service frame has ended.
fn framed(desk: &Desk, frame: Framed, rows: &mut Rows) {
    match frame {
        Framed::Begun {
            code,
            command,
            buffer,
            length,
        } => desk.note(format_args!(
            "frame of the application: {} to {code}, buffer {buffer}, data bytes {length}\n",
            Command(command)
        )),
        Framed::Poll(code) => {
            let turns = turn(desk, code, rows);
            desk.note(format_args!("turn {turns} of {code}: it is polled, 0A\n"));
        }
        Framed::Null(code) => {
            let turns = turn(desk, code, rows);
            desk.note(format_args!(
                "turn {turns} of {code}: null message FE, for its last request is not acknowledged\n"
            ));
        }
        Framed::PollEnded(code, status) => {
            desk.note(format_args!("the poll of {code} ended: {}\n", Status(status)))
        }
        Framed::NullEnded(status) => {
            desk.note(format_args!("the null message ended: {}\n", Status(status)))
        }
    }
}

// The turn of a code: how many it had, this one among them.
fn turn(desk: &Desk, code: u8, rows: &mut Rows) -> u64 {
    let place = desk.plan.units.place_of(code);
    rows.hosts.turned(place);
    rows.hosts.at(place).turns
}

// The submitted command has ended.
fn finished(desk: &mut Desk, status: u8, received: u16, response: &[u8]) {
    desk.is_submitted = false;
    desk.status = Some(status);
    desk.received = usize::from(received);
    desk.note(format_args!("ended: {}, data bytes {received}\n", Status(status)));
    if 0 < received {
        tell::received(desk, word::front(response, desk.received));
    }
}

// A request is handed over.
fn handed(desk: &mut Desk, code: u8, rows: &mut Rows) {
    let place = desk.plan.units.place_of(code);
    desk.request = Some(code);
    desk.requests = desk.requests.saturating_add(1);
    rows.hosts.handed(place);
    let host = rows.hosts.at(place);
    desk.note(format_args!(
        "the request of {code} is handed over: service frame {} since it was raised, units ahead of it then {}\n",
        host.waited, host.ahead
    ));
}

// What is seen of the bus after an act. Units that begin to pull BAV are named.
pub fn seen(desk: &mut Desk, view: View) {
    let before = desk.view.asking;
    desk.view = view;
    let codes = desk.plan.units.all();
    for ((code, now), before) in codes.iter().zip(&view.asking).zip(&before) {
        if *now & !before {
            desk.note(format_args!("{code} pulls BAV for its request\n"));
        }
    }
}

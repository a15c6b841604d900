// The lines of a round, dumped and pictured.
use crate::Rows;
use desk::Desk;
use picture::dump::Parties;
use picture::strip::{Strip, WIDTH};
use picture::{ALL, Marks, RELEASED, STAND_INS, dump};
use statement::{Act, Form, Store};

// No party pulls a line.
const QUIET: Marks = [RELEASED; 22];

// Whether an act is dumped or pictured: a round, or a step by hand.
pub fn is_wanted(desk: &Desk, act: Act) -> bool {
    let is_stepped = (act == Act::Round) | desk.statement.is(Form::Step);
    is_stepped & (desk.dump.is_some() | desk.is_pictured)
}

// Behind a round, or a step by hand: what each party leaves on the lines, units by their place, then the controller. All together and
// stand-ins are added here.
pub fn round(desk: &mut Desk, marks: Marks, rows: &mut Rows, store: &mut Store) {
    let after = with_stand_ins(desk, marks, rows);
    if desk.dump.is_some() {
        dumped(desk, store, &after);
    }
    if desk.is_pictured {
        pictured(desk, &mut rows.strip, &after);
    }
}

fn with_stand_ins(desk: &Desk, marks: Marks, rows: &Rows) -> Marks {
    let mut after = marks;
    after[ALL] = picture::mark(crate::levels(desk, rows));
    for (mark, one) in after.iter_mut().skip(STAND_INS).zip(&rows.stand_ins) {
        *mark = picture::mark(one.pulls());
    }
    after
}

// The dump of a round; before the first its head, and the lines of a quiet start.
fn dumped(desk: &mut Desk, store: &mut Store, after: &Marks) {
    let before = if desk.round == 1 {
        head(desk);
        QUIET
    } else {
        store.marks
    };
    store.marks = *after;
    let is_written = dump::round(desk.dump, desk.round, &before, after, parties(desk));
    desk.is_lost |= !is_written;
}

fn parties(desk: &Desk) -> Parties<'_> {
    Parties {
        units: desk.plan.units.all(),
        stand_ins: desk.plan.stand_ins.all(),
    }
}

fn head(desk: &mut Desk) {
    let is_written = dump::head(desk.dump, &QUIET, parties(desk));
    desk.is_lost |= !is_written;
}

// The end of a dump: its head, where no round was run, and the time after its last round.
pub(crate) fn end(desk: &mut Desk) {
    if desk.dump.is_none() {
        return;
    }
    if desk.round == 0 {
        head(desk);
    }
    let is_written = dump::end(desk.dump, desk.round.saturating_add(1));
    desk.is_lost |= !is_written;
}

// A column more on the strip. It is shown when it is full, and in the first round with no line low.
fn pictured(desk: &Desk, strip: &mut Strip, after: &Marks) {
    strip.push(after);
    let is_released = after[ALL] == RELEASED;
    let least = if is_released { 2 } else { WIDTH };
    let is_shown = least <= strip.len();
    if is_shown {
        strip.show(desk.out, desk.round);
    }
    if is_released | is_shown {
        strip.clear();
    }
}

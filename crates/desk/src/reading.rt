// A script is read as a whole before any of it is played.
use crate::Script;
use crate::plan::{Plan, Reason};
use page::STDOUT;
use script::Misread;
use statement::{MOST, Statement};

// The longest line.
const LONGEST: usize = 4096;

// No more lines are read of a script, those of each pass of a repeat counted.
const LINES: u64 = 1000000000;

// How many lines that cannot be played are said.
const SAID: u64 = 20;

// The plan at the end of a script: how many of its lines cannot be played. The first twenty are said.
pub fn read(script: Script<'_>, bytes: &mut [u8; MOST]) -> Plan {
    let mut plan = Plan::new();
    for _ in 0..LINES {
        if script.text.len() <= plan.next {
            break;
        }
        checked(script, &mut plan, bytes);
    }
    ended(script, &mut plan);
    plan
}

// What can be said of a script only at its end.
fn ended(script: Script<'_>, plan: &mut Plan) {
    if plan.repeat.is_some() {
        wrong(script, plan, Reason::NoEnd);
    }
    if !plan.has_statement {
        wrong(script, plan, Reason::Empty);
    }
    if SAID < plan.faults {
        page::show(STDOUT, script.name);
        page::tell(
            STDOUT,
            format_args!(": {} such lines in all\n", plan.faults),
        );
    }
}

// The next line.
fn checked(script: Script<'_>, plan: &mut Plan, bytes: &mut [u8; MOST]) {
    let line = plan.next_line(script.text);
    let read = script::read(line, plan.pass(), bytes);
    if LONGEST < line.len() {
        wrong(script, plan, Reason::LongLine);
        plan.past_line();
        return;
    }
    match read {
        Ok(read) => stated(script, plan, &read.statement),
        Err(m) => {
            misread(script, plan, line, m);
            plan.past_line();
        }
    }
}

// The statement of a line.
fn stated(script: Script<'_>, plan: &mut Plan, s: &Statement) {
    let allowed = plan.allows(s);
    plan.add(s, allowed.is_ok());
    plan.has_statement |= s.form.is_some();
    if let Err(why) = allowed {
        wrong(script, plan, why);
    }
    plan.past(s);
}

// A line that is no statement.
fn misread(script: Script<'_>, plan: &mut Plan, line: &[u8], m: Misread<'_>) {
    if counted(script, plan) {
        fault::misread(STDOUT, line, m);
    }
}

// One more line that cannot be played, for a reason.
fn wrong(script: Script<'_>, plan: &mut Plan, why: Reason) {
    if counted(script, plan) {
        page::tell(STDOUT, format_args!("{why}\n"));
    }
}

// One more line that cannot be played; whether it is said why. In a repeat no more passes follow.
fn counted(script: Script<'_>, plan: &mut Plan) -> bool {
    plan.has_statement = true;
    plan.faults = plan.faults.saturating_add(1);
    if let Some(repeat) = &mut plan.repeat {
        repeat.passes = 0;
    }
    let is_said = plan.faults <= SAID;
    if is_said {
        page::show(STDOUT, script.name);
        page::tell(STDOUT, format_args!(": line {}: ", plan.line));
    }
    is_said
}

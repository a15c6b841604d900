// Runs a bus on a desk: a controller and up to sixteen units, played by a script (docs/SCRIPTS.md). It gives no exit status of its
// own: at its very end it writes `ok` to descriptor 9 if all that it was asked for was done and every expectation held. The launcher reads that.

#![tactic(auto)]

mod played;

use asked::files::{Content, Unavailable};
use asked::{Wanted, Wrong, files};
use bench::Lent;
use desk::tally::Tally;
use desk::{Desk, Failures, Script, reading};
use page::{Page, STDOUT};
use played::Play;
use statement::{Form, Store};
use std::fs::File;
use std::io::Input;
use std::rt::{Env, Files};

// Where the verdict goes.
const VERDICT: i32 = 9;

// The bytes of a script, and one more for the end of its last line.
const LARGEST: usize = 1048577;

fn main(rt: HostRuntime) {
    if done(&rt) {
        io::write_all(VERDICT, b"ok\n");
    }
}

// What the first word asks for; whether it was done.
fn done<R: Env + Files<File = File> + Input>(rt: &R) -> bool {
    let first = asked::arg(rt, 1);
    match first.letters() {
        b"run" => run(rt),
        b"" | b"help" | b"--help" => help(),
        other => {
            Wrong::NoCommand.say(other);
            false
        }
    }
}

fn help() -> bool {
    page::say(
        STDOUT,
        b"hexbus run SCRIPT.. [--lines] [--vcd FILE] [--screen FILE]   plays scripts on a bus of a controller, units and stand-ins; - is standard input
    --lines         pictures each frame on the terminal
    --vcd FILE      writes the lines of one script as a value change dump, one time unit to a round
    --screen FILE   writes the screens of one script as they are at its end, 24 lines each
hexbus help                                                  prints this

A script has one statement to a line; # begins a comment. Device codes (CODE) and counts (N) are decimal; commands, statuses (BYTE) and
BYTES hexadecimal, as 41 or 41*300 or 00+300 (counting up), or text in quotes, several behind each other. COMMAND is a code, or open close
read write enable disable null reset. What stands in brackets may be left out; | stands between words one of which is meant. In a repeat, $
is the number of the pass.

",
    );
    let mut forms = Page::new();
    for form in Form::ALL {
        forms.words(form.words());
        forms.letter(b'\n');
    }
    forms.write(STDOUT);
    true
}

// Each script in the order of the words; whether all of them were played whole and every expectation held.
fn run<R: Env + Files<File = File> + Input>(rt: &R) -> bool {
    let Some(wanted) = asked::words(rt) else {
        return false;
    };
    let mut text = [0; LARGEST];
    let mut store = Store::new();
    let mut lent = Lent::new();
    let mut failures = Failures::new();
    let mut tally = Tally::new();
    for i in 2..asked::count(rt) {
        let name = asked::arg(rt, i);
        if wanted.is_script(i, name.letters()) {
            let name = name.letters();
            let played = named(
                rt,
                &wanted,
                name,
                &mut text,
                &mut store,
                &mut lent,
                &mut failures,
            );
            match played {
                Ok(desk) => tally.played(&desk, name),
                Err(Unavailable) => tally.not_run(&mut failures, name),
            }
        }
    }
    tally.all(&failures, wanted.scripts)
}

// Plays the script of a name. It is played only if every line of it can be, and its dump and its screens can be written.
fn named<R: Env + Files<File = File> + Input>(
    rt: &R,
    wanted: &Wanted,
    name: &[u8],
    text: &mut [u8; LARGEST],
    store: &mut Store,
    lent: &mut Lent,
    failures: &mut Failures,
) -> Result<Desk, Unavailable> {
    let text = files::load(rt, name, text)?;
    let script = Script { name, text };
    check(script, store)?;
    let dump = files::open(rt, wanted.dump, Content::Dump)?;
    page::show(STDOUT, name);
    page::say(STDOUT, b"\n");
    let screens = files::open(rt, wanted.screen, Content::Screens)?;
    let mut play = Play::new(script, dump, wanted.is_pictured);
    Ok(play.whole(store, lent, screens, failures))
}

// Whether every line can be played.
fn check(script: Script<'_>, store: &mut Store) -> Result<(), Unavailable> {
    let plan = reading::read(script, &mut store.statement);
    if 0 < plan.faults {
        page::show(STDOUT, script.name);
        page::say(STDOUT, b": nothing was run\n\n");
        return Err(Unavailable);
    }
    Ok(())
}

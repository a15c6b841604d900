// How the scripts so far have gone.
ghost use Rattle.std.specs.Prelude.{◌≡◌, ◌<◌, IsTrue, false, not};

use crate::{Desk, Failures};
use page::{Page, STDERR, STDOUT};

// Expectations that held, failures, and whether a script was not played whole or an expectation failed.
#[derive(Clone, Copy)]
pub struct Tally {
    pub held: u64,
    pub failed: u64,
    pub is_bad: bool,
}

impl Tally {
    // Before the first script.
    pub fn new() -> Tally
        ensures { result.is_bad ≡ false }
    {
        Tally {
            held: 0,
            failed: 0,
            is_bad: false,
        }
    }

    // A script that was not run is a failure.
    pub fn not_run(&mut self, failures: &mut Failures, name: &[u8])
        ensures { IsTrue self.new.is_bad }
    {
        let mut page = Page::new();
        page.words(b"FAILS ");
        page.show(name);
        page.words(b": it was not run\n");
        failures.keep(page.letters());
        self.is_bad = true;
    }

    // What a script has come to.
    pub fn played(&mut self, desk: &Desk, name: &[u8])
        ensures kept { IsTrue self.old.is_bad → IsTrue self.new.is_bad }
        ensures lost { IsTrue desk.now.is_lost → IsTrue self.new.is_bad }
        ensures failed { 0 < desk.now.failed → IsTrue self.new.is_bad }
    {
        page::show(STDOUT, name);
        page::tell(
            STDOUT,
            format_args!(
                ": {} rounds; expectations held {}, failed {}\n\n",
                desk.round, desk.held, desk.failed
            ),
        );
        if desk.is_lost {
            page::say(
                STDERR,
                b"hexbus: a file that was asked for could not be written\n",
            );
        }
        self.held = self.held.saturating_add(desk.held);
        self.failed = self.failed.saturating_add(desk.failed);
        self.is_bad |= desk.is_lost | (0 < desk.failed);
    }

    // What all of them have come to, so many scripts: whether they were played whole and every expectation held.
    pub fn all(&self, failures: &Failures, scripts: usize) -> bool
        ensures { result ≡ not self.now.is_bad }
    {
        if self.is_bad {
            page::say(STDOUT, failures.words());
        }
        page::tell(
            STDOUT,
            format_args!(
                "scripts {scripts}, expectations held {}, failed {}\n",
                self.held, self.failed
            ),
        );
        !self.is_bad
    }
}

// A script without faults is played, step by step.
use bench::{Bench, Lent};
use desk::{Desk, Failures, Script};
use page::Out;
use play::{Look, Rows, found, noted, pictured};
use statement::{Doing, Event, Form, Stepped, Store, Told};

// A script, the desk, the hosts and stand-ins of the bus, and the bus. What is lent to the bus and beside it is large, and the scripts of a
// run take it one after the other.
#[derive(Drop)]
pub struct Play<'a> {
    script: Script<'a>,
    desk: Desk,
    rows: Rows,
    bench: Bench,
}

impl<'a> Play<'a> {
    // Before the first statement of a script.
    pub fn new(script: Script<'a>, dump: Out, is_pictured: bool) -> Play<'a> {
        let mut desk = Desk::new();
        desk.dump = dump;
        desk.is_pictured = is_pictured;
        Play {
            script,
            desk,
            rows: Rows::new(),
            bench: Bench::new(),
        }
    }

    // All of it; what it has come to. The screens of the bus are written to a file at its end. Nothing that a script before it has left in
    // the store is looked at.
    pub fn whole(
        &mut self,
        store: &mut Store,
        lent: &mut Lent,
        screens: Out,
        failures: &mut Failures,
    ) -> Desk {
        lent.renew();
        for _ in 0..u64::MAX {
            if (self.script.text.len() <= self.desk.plan.next) & !self.desk.is_under_way {
                break;
            }
            self.step(store, lent, failures);
        }
        play::ended(self.script, &mut self.desk, failures);
        found::write_screens(&mut self.desk, screens, &lent.memory);
        self.desk
    }

    // The next statement, where none is under way; then an act of the bus for it, or what has come of all of them.
    fn step(&mut self, store: &mut Store, lent: &mut Lent, failures: &mut Failures) {
        if !self.desk.is_under_way {
            play::next(self.script, &mut self.desk, &mut self.rows, store, failures);
        }
        if play::goes_on(&self.desk, &self.rows) {
            self.act(store, lent);
        } else {
            self.conclude(store, lent, failures);
        }
    }

    fn act(&mut self, store: &mut Store, lent: &mut Lent) {
        let doing = play::doing(&self.desk, &mut self.rows);
        let told = self.bench.act(&self.desk.statement, &doing, store, lent);
        noted::acted(
            &mut self.desk,
            &doing,
            told,
            &mut self.rows,
            store,
            &lent.response,
        );
        self.see(&doing, told, store);
    }

    // What is seen of the bus after an act. A request that is handed over is acknowledged at once, where the script says so.
    fn see(&mut self, doing: &Doing, told: Told, store: &mut Store) {
        if let (Some(code), true) = (handed(told), self.desk.acknowledges) {
            self.bench.acknowledge(code);
        }
        noted::seen(&mut self.desk, self.bench.view());
        if pictured::is_wanted(&self.desk, doing.act) {
            let marks = self.bench.marks();
            pictured::round(&mut self.desk, marks, &mut self.rows, store);
        }
    }

    // After a look at the bus.
    fn conclude(&mut self, store: &mut Store, lent: &Lent, failures: &mut Failures) {
        let s = self.desk.statement;
        self.desk.entries = self.bench.entries(store);
        if s.is(Form::ShowUnits) {
            self.show_units();
        }
        let look = Look {
            values: self.bench.looks(s.form, self.desk.plan.subject(&s)),
            response: &lent.response,
            memory: &lent.memory,
        };
        play::concluded(
            self.script,
            &mut self.desk,
            &look,
            &self.rows,
            store,
            failures,
        );
    }

    // Shows each unit.
    fn show_units(&self) {
        for i in 0..self.desk.plan.units.len() {
            let looks = self.bench.looks(Some(Form::ExpectUnit), Some(i));
            found::show_unit(&self.desk, &looks, i, &self.rows);
        }
    }
}

// The code whose request a step of the controller has handed over.
fn handed(told: Told) -> Option<u8> {
    match told {
        Told::Stepped(
            Stepped {
                event: Ok(Some(Event::Handed(code))),
                ..
            },
        ) => Some(code),
        _ => None,
    }
}

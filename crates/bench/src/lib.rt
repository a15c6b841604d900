// The bus of a script: what each act of a statement makes of it, and looks at its parties. What is said of it is not known here.

#![tactic(auto)]

ghost use Rattle.std.specs.Prelude.{◌≡◌, ◌≤◌, replicate};

use bus::{Bus, MEMORY};
use desk::View;
use picture::Marks;
use statement::{Act, Doing, Form, Refusal, Statement, Stepped, Store, Told, UNIT_MEMORY, Values};

// The bus of a script. It lies apart from what is lent to it, which is too large to be made anew for each script.
#[derive(Drop)]
pub struct Bench {
    bus: Bus,
}

// What is lent to it: the response buffer of its application, and the memory of its units.
#[derive(Drop)]
pub struct Lent {
    pub response: [u8; 65536],
    pub memory: [u8; MEMORY],
}

impl Lent {
    // Blank. It is renewed before each script.
    pub fn new() -> Lent
        ensures response { result.response ≡ replicate 65536 0 }
        ensures memory { result.memory ≡ replicate 38912 0 }
    {
        Lent {
            response: [0; 65536],
            memory: [0; MEMORY],
        }
    }

    // As it is before the first round of a script.
    pub fn renew(&mut self)
        ensures response { self.new.response ≡ replicate 65536 0 }
        ensures memory { self.new.memory ≡ replicate 38912 0xEE }
    {
        self.response.fill(0);
        self.memory.fill(0xEE);
    }
}

impl Bench {
    // A bus with a controller of the default time-out and no unit.
    pub fn new() -> Bench {
        let made = application::make(application::TIMEOUT);
        Bench {
            bus: Bus::new(made.controller),
        }
    }

    // An act for a statement, and what it comes to.
    pub fn act(
        &mut self,
        s: &Statement,
        doing: &Doing,
        store: &mut Store,
        lent: &mut Lent,
    ) -> Told {
        match doing.act {
            // The length of a forced command counts as in its frame, which has two bytes for it.
            Act::Round => Told::Stepped(round(
                &mut self.bus,
                doing,
                controllercalls::data(store, doing.length % 65536),
                &mut lent.response,
                &mut lent.memory,
            )),
            Act::Controller if s.is(Form::Step) => Told::Stepped(controllercalls::step(
                &mut self.bus.controller,
                s,
                doing,
                store,
                &mut lent.response,
            )),
            Act::Controller => Told::Called(controllercalls::act(
                &mut self.bus.controller,
                s,
                store,
                &mut lent.response,
            )),
            Act::OneMore => Told::Called(self.one_more(&s.values)),
            Act::Unit(i) => self.of_unit(i, s, doing, store, &mut lent.memory),
        }
    }

    // One unit more, if its settings are in range.
    fn one_more(&mut self, values: &Values) -> Result<(), Refusal> {
        let u = unitcalls::make(values)?;
        self.bus = self.bus.with(u);
        Ok(())
    }

    // The unit at a place. The ring as it was before is noted.
    fn of_unit(
        &mut self,
        i: usize,
        s: &Statement,
        doing: &Doing,
        store: &mut Store,
        memory: &mut [u8],
    ) -> Told {
        self.entries(store);
        let part = memory.chunks_exact_mut(UNIT_MEMORY).nth(i);
        match (self.bus.units.get_mut(i), part) {
            (Some(u), Some(memory)) => unitcalls::act(u, s, doing, store, memory),
            _ => Told::Called(Ok(())),
        }
    }

    // The application acknowledges the request of a code.
    pub fn acknowledge(&mut self, code: u8) {
        // What is not marked stays as it is.
        let _ = controllercalls::acknowledge(&mut self.bus.controller, code);
    }

    // What is seen of the bus.
    pub fn view(&self) -> View {
        let units = &self.bus.units;
        View {
            lines: self.bus.levels(),
            is_free: controller::is_idle(self.bus.controller.stage),
            asking: units.map(|u| u.asking),
            is_requesting: units.iter().any(|u| u.serial.requesting),
        }
    }

    // What the units and the controller leave on the lines (picture).
    pub fn marks(&self) -> Marks {
        let mut marks = [picture::RELEASED; 22];
        for (mark, u) in marks.iter_mut().zip(self.bus.units.iter()) {
            *mark = picture::mark(unit::pulls(*u));
        }
        marks[picture::CONTROLLER] = picture::mark(controller::pulls(self.bus.controller));
        marks
    }

    // What an expectation finds of a unit by its place, none for the controller.
    pub fn looks(&self, form: Option<Form>, party: Option<usize>) -> Values {
        match party.and_then(|i| self.bus.units.get(i)) {
            Some(u) => unitcalls::looks(u, form),
            None => controllercalls::looks(&self.bus.controller, form),
        }
    }

    // The entries of the ring are noted: how many bytes these are.
    pub fn entries(&self, store: &mut Store) -> usize
        ensures { result ≤ 32 }
    {
        controllercalls::entries(&self.bus.controller.ring, &mut store.ring)
    }
}

// A round of every party, with what was lent for the controller's command.
fn round(
    bus: &mut Bus,
    doing: &Doing,
    data: &[u8],
    response: &mut [u8],
    memory: &mut [u8; MEMORY],
) -> Stepped {
    let before = bus.controller.stage;
    let n = doing.lent.min(response.len());
    let outcome = bus.round(doing.seen, doing.busy, data, &mut response[..n], memory);
    controllercalls::stepped(before, &bus.controller, outcome)
}

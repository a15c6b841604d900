// A bus of one controller and up to sixteen units: in a round each party steps once, at the levels left by all pulls of the round
// before. The units' memory stays with the caller.

#![tactic(auto)]

ghost use Rattle.std.specs.Prelude.{◌≡◌, ◌++◌, ◌+◌, ◌*◌, ◌≤◌, min, length, take, drop};
ghost use Rattle.controller.specs.Calls.{stepped};
ghost use Rattle.unit.specs.Calls.{stepping, buffer_after, output_after};
ghost use Rattle.unit.specs.Unit.{new_unit};
ghost use Rattle.bus.specs.Bus.{unit_after, station_step, station_at, stations_of, units_in, bytes_of, memory_of, new_bus, with_unit, levels_of, units_after, round_of, outcome_of, response_of, memory_after};

use controller::{Controller, StepError};
use line::Lines;
use phase::Phase;
use serial::Serial;
use turn::Event;
use unit::Unit;

// The memory of each unit: command buffer 256, input queue 256, and 1,920 bytes for what is written to it; and that of all sixteen.
pub const EACH: usize = 2432;

pub const MEMORY: usize = 38912;

// A unit that has queues, with the memory that its calls are lent.
#[derive(Clone, Copy)]
pub struct Station {
    pub unit: Unit,
    pub buffer: [u8; 256],
    pub input: [u8; 256],
    pub output: [u8; 256],
}

// One controller and its units, in any order. A count over 16 is that of sixteen units.
#[derive(Clone, Copy)]
pub struct Bus {
    pub controller: Controller,
    pub units: [Unit; 16],
    pub count: u8,
}

impl Station {
    // A round of it.
    pub fn step(self, seen: Lines, busy: bool) -> Station
        ensures { result ≡ station_step self seen busy }
    {
        let mut buffer = self.buffer;
        let input = self.input;
        let mut output = self.output;
        let unit = unit_after(self.unit, seen, busy, &mut buffer, &input, &mut output);
        Station {
            unit,
            buffer,
            input,
            output,
        }
    }
}

impl Bus {
    // A bus without units.
    pub fn new(c: Controller) -> Bus
        ensures { result ≡ new_bus c }
    {
        Bus {
            controller: c,
            units: [blank(); 16],
            count: 0,
        }
    }

    // With one unit more. A bus of sixteen stays as it is.
    pub fn with(mut self, u: Unit) -> Bus
        ensures { result ≡ with_unit self u }
    {
        if self.count < 16 {
            self.units[self.count as usize] = u;
            self.count += 1;
        }
        self
    }

    // What all pulls leave on the lines.
    pub fn levels(self) -> Lines
        ensures { result ≡ levels_of self }
    {
        let mut l = controller::pulls(self.controller);
        for u in &self.units[..up_to_16(self.count)] {
            l = line::wired(l, unit::pulls(*u));
        }
        l
    }

    // A round of every party at the levels `seen`: those of `levels` on a bus without faults. Bit i of busy says whether the host of
    // unit i is busy, bit 16 whether the controller's is. The command's data and the response buffer are lent to the controller, and
    // its part of the memory to each unit, in the units' order. What the controller's step comes to is what the round comes to: where
    // it is refused, the units step nevertheless.
    pub fn round(
        &mut self,
        seen: Lines,
        busy: u32,
        data: &[u8],
        response: &mut [u8],
        memory: &mut [u8; MEMORY],
    ) -> Result<Event, StepError>
        ensures bus_value { self.new ≡ round_of self.old seen busy «data».now response.old memory.old }
        ensures outcome_value { stepped result ≡ outcome_of self.old seen busy «data».now response.old }
        ensures response_after { response.new ≡ response_of self.old seen busy «data».now response.old }
        ensures memory_after { memory.new ≡ memory_after self.old seen busy memory.old }
    {
        let n = up_to_16(self.count);
        units_after(&mut self.units[0..n], seen, busy, memory);
        controller::step(
            &mut self.controller,
            seen,
            busy / 65536 % 2 == 1,
            data,
            response,
        )
    }
}

// A round of units, each in its own part of the memory. The parts are taken by their places: after `chunks_exact_mut` nothing is known
// of the bytes.
fn units_after(units: &mut [Unit], seen: Lines, busy: u32, memory: &mut [u8])
    requires units_len { length units.old ≤ 16 }
    requires memory_len { length memory.old ≡ 38912 }
    ensures units_after { units.new ≡ units_in (units_after seen busy (stations_of units.old memory.old)) }
    ensures memory_after { memory.new ≡ memory_of (units_after seen busy (stations_of units.old memory.old)) ++ drop (2432 * length units.old) memory.old }
{
    let mut hosts = busy;
    let mut at = 0;
    for u in units.iter_mut() {
        let end = at + EACH;
        *u = unit_round(*u, seen, hosts % 2 == 1, &mut memory[at..end]);
        hosts /= 2;
        at = end;
    }
}

// A round of a unit in its part of the memory.
fn unit_round(u: Unit, seen: Lines, busy: bool, memory: &mut [u8]) -> Unit
    requires { length memory.old ≡ 2432 }
    ensures value { result ≡ (station_step (station_at u memory.old) seen busy).unit }
    ensures memory_after { memory.new ≡ bytes_of (station_step (station_at u memory.old) seen busy) }
{
    let mut buffer = copied(memory, 0);
    let input = copied(memory, 256);
    let after = unit_after(u, seen, busy, &mut buffer, &input, &mut memory[512..]);
    put(&buffer, memory, 0);
    after
}

// A unit after its step, or as it was before a refusal.
fn unit_after(
    u: Unit,
    seen: Lines,
    busy: bool,
    buffer: &mut [u8; 256],
    input: &[u8; 256],
    output: &mut [u8],
) -> Unit
    ensures value { result ≡ unit_after (stepping u seen busy buffer.old input.now output.old) u }
    ensures buffer_after { buffer.new ≡ buffer_after u seen busy buffer.old input.now output.old }
    ensures output_after { output.new ≡ output_after u seen busy buffer.old input.now output.old }
{
    unit::step(u, seen, busy, buffer, input, output).unwrap_or(u)
}

// 256 bytes of a slice, from a place on.
fn copied(s: &[u8], from: usize) -> [u8; 256]
    requires { from + 256 ≤ length s.now }
    ensures { result ≡ take 256 (drop from s.now) }
{
    let mut copy = [0u8; 256];
    let end = from + 256;
    copy.copy_from_slice(&s[from..end]);
    copy
}

// Puts 256 bytes into a slice, from a place on.
fn put(part: &[u8; 256], s: &mut [u8], from: usize)
    requires { from + 256 ≤ length s.old }
    ensures { s.new ≡ take from s.old ++ (part.now ++ drop (from + 256) s.old) }
{
    let end = from + 256;
    s[from..end].copy_from_slice(part);
}

// A count of units: one over 16 is that of sixteen.
fn up_to_16(count: u8) -> usize
    ensures { result ≡ min count 16 }
{
    count.min(16) as usize
}

// What stands where no unit is.
fn blank() -> Unit
    ensures { result ≡ new_unit 1 20 }
{
    Unit {
        own: 1,
        retry: 20,
        quiet: 0,
        asking: false,
        phase: Phase::Idle,
        serial: Serial::new(),
    }
}

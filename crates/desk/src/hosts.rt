// What each host does by itself, and what is counted of its unit's requests and turns.

// What there is of a host.
#[derive(Clone, Copy)]
pub struct Host {
    // What it does by itself.
    raises: Option<Raises>,
    busy: Busy,
    // Of how many rounds it is free in the last, 0 for every round, and in how many it was busy since.
    free: u64,
    since: u64,
    // Whether a request is waited for; in how many service frames since it was raised, and how many units were ahead of it then.
    waits: bool,
    pub waited: u64,
    pub ahead: usize,
    // How many turns of the ring its unit had.
    pub turns: u64,
}

// It raises a request every so many rounds, and next in this one.
#[derive(Clone, Copy)]
struct Raises {
    every: u64,
    due: u64,
}

// It is busy for so many rounds more, or for ever.
#[derive(Clone, Copy)]
enum Busy {
    For(u64),
    ForEver,
}

// The hosts by the place of their units. Behind them stands the controller; where turns and requests are counted, all codes together that
// no unit has.
#[derive(Clone, Copy)]
pub struct Hosts {
    hosts: [Host; 17],
}

const BEHIND: usize = 16;

impl Hosts {
    // All of them do nothing by themselves.
    pub fn new() -> Hosts {
        Hosts {
            hosts: [Host {
                raises: None,
                busy: Busy::For(0),
                free: 0,
                since: 0,
                waits: false,
                waited: 0,
                ahead: 0,
                turns: 0,
            }; 17],
        }
    }

    // That of the unit at a place, or the one behind them.
    pub fn at(&self, place: Option<usize>) -> &Host {
        match place {
            Some(i) => self.hosts.get(i).unwrap_or(&self.hosts[BEHIND]),
            None => &self.hosts[BEHIND],
        }
    }

    // Those that are busy in a round, a bit for each; then each is busy for one round less.
    pub fn busy(&mut self) -> u32 {
        let mut bits = 0;
        for host in self.hosts.iter_mut().rev() {
            bits = bits << 1 | u32::from(host.is_busy());
        }
        bits
    }

    // One is busy for so many rounds.
    pub fn be_busy(&mut self, place: Option<usize>, rounds: u64) {
        self.at_mut(place).busy = Busy::For(rounds);
    }

    // One is free only in every so many rounds, in none where that is 0.
    pub fn be_free(&mut self, place: Option<usize>, every: u64) {
        let host = self.at_mut(place);
        host.busy = if every == 0 {
            Busy::ForEver
        } else {
            Busy::For(0)
        };
        host.free = every;
        host.since = 0;
    }

    // One raises a request every so many rounds from this one on, never where that is 0.
    pub fn raise(&mut self, place: usize, round: u64, every: u64) {
        let raises = if every == 0 {
            None
        } else {
            Some(Raises { every, due: round })
        };
        self.at_mut(Some(place)).raises = raises;
    }

    // The first that is due to raise a request by itself, and then again so many rounds later.
    pub fn due(&mut self, round: u64) -> Option<usize> {
        for (i, host) in self.hosts.iter_mut().enumerate() {
            if host.is_due(round) {
                return Some(i);
            }
        }
        None
    }

    // A service frame begins: the turn of the unit at a place, or of a code that no unit has.
    pub fn turned(&mut self, place: Option<usize>) {
        for host in self.hosts.iter_mut() {
            host.waited = host.waited.saturating_add(u64::from(host.waits));
        }
        let host = self.at_mut(place);
        host.turns = host.turns.saturating_add(1);
    }

    // A request of the unit at a place is waited for from now on, with so many entries of the ring before its unit's.
    pub fn waiting(&mut self, place: usize, ahead: usize) {
        let host = self.at_mut(Some(place));
        host.waits = true;
        host.waited = 0;
        host.ahead = ahead;
    }

    // It is handed over.
    pub fn handed(&mut self, place: Option<usize>) {
        self.at_mut(place).waits = false;
    }

    fn at_mut(&mut self, place: Option<usize>) -> &mut Host {
        let i = place.unwrap_or(BEHIND).min(BEHIND);
        &mut self.hosts[i]
    }
}

impl Host {
    // Whether it is busy in a round. Then it is for one round less.
    fn is_busy(&mut self) -> bool {
        let is_busy = match self.busy {
            Busy::For(0) => false,
            Busy::For(n) => {
                self.busy = Busy::For(n - 1);
                true
            }
            Busy::ForEver => true,
        };
        let since = self.since.saturating_add(1);
        let waits = since < self.free;
        self.since = if waits { since } else { 0 };
        waits | is_busy
    }

    // Whether it raises a request in a round.
    fn is_due(&mut self, round: u64) -> bool {
        match self.raises {
            Some(Raises { every, due }) if due <= round => {
                let due = round.saturating_add(every);
                self.raises = Some(Raises { every, due });
                true
            }
            _ => false,
        }
    }
}

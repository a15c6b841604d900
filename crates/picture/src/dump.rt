// The lines as a value change dump, one time unit to a round. A wire is 1 while it is high. One scope has the lines of the bus, and one
// for each party has the lines as that party leaves them: 0 where it pulls. In each the nibble is one signal, and its lines are four more.
use crate::{ALL, CONTROLLER, Marks, STAND_INS};
use page::{Out, Page};
use std::fmt;

// The parties of a bus: the codes of its units by their place, and those of its stand-ins, none for one of every code.
#[derive(Clone, Copy)]
pub struct Parties<'a> {
    pub units: &'a [u8],
    pub stand_ins: &'a [Option<u8>],
}

// The head of the dump of a bus, and every value at time 0. Answers whether the writes succeeded, as round and end do.
pub fn head(out: Out, marks: &Marks, parties: Parties<'_>) -> bool {
    let mut page = Page::new();
    page.words(b"$comment one time unit to a round; 0 is low or pulled $end\n");
    page.words(b"$timescale 1 us $end\n");
    scope(&mut page, "bus", ALL);
    for (i, code) in parties.stand_ins.iter().enumerate() {
        let place = STAND_INS.saturating_add(i);
        match code {
            Some(code) => scope(&mut page, format_args!("stand_in_{code}"), place),
            None => scope(&mut page, "stand_in_any", place),
        }
    }
    for (i, code) in parties.units.iter().enumerate() {
        scope(&mut page, format_args!("unit_{code}"), i);
    }
    scope(&mut page, "controller", CONTROLLER);
    page.words(b"$enddefinitions $end\n");
    page.write(out) & round(out, 0, marks, marks, parties)
}

// What a round has changed; nothing is written if nothing has changed. Round 0 is the start, of which every value is written.
pub fn round(out: Out, number: u64, before: &Marks, after: &Marks, parties: Parties<'_>) -> bool {
    let mut page = Page::new();
    page.tell(format_args!("#{number}\n"));
    let empty = page.letters().len();
    let stand_ins = ALL..STAND_INS.saturating_add(parties.stand_ins.len());
    let units = 0..parties.units.len();
    for i in stand_ins.chain(units).chain(CONTROLLER..ALL) {
        if let (Some(before), Some(after)) = (before.get(i), after.get(i)) {
            let changed = if number == 0 {
                ALL_LINES
            } else {
                *before ^ *after
            };
            values(&mut page, i, changed, *after);
        }
    }
    (page.letters().len() == empty) || page.write(out)
}

// The end of a dump: the time after its last round.
pub fn end(out: Out, number: u64) -> bool {
    let mut page = Page::new();
    page.tell(format_args!("#{number}\n"));
    page.write(out)
}

// Whether the front of a file is that of a value change dump: empty, or with one of these words first.
pub fn is_dump(front: &[u8]) -> bool {
    let word = front.split(|b| *b <= b' ').next().unwrap_or(front);
    match word {
        b"$comment" | b"$date" | b"$version" | b"$timescale" | b"$scope" => true,
        _ => front.is_empty(),
    }
}

// The lines of a mark, and the letter by which each is known in a scope.
const LINES: [(u8, char); 6] = [(1, '0'), (2, '1'), (4, '2'), (8, '3'), (16, 'h'), (32, 'b')];

const ALL_LINES: u8 = 63;

// A scope and its wires.
fn scope(page: &mut Page, name: impl fmt::Display + Drop, place: usize) {
    let c = letter(place);
    page.tell(format_args!("$scope module {name} $end\n"));
    page.tell(format_args!("$var wire 1 {c}b BAV $end\n$var wire 1 {c}h HSK $end\n"));
    page.tell(format_args!("$var wire 4 {c}n D $end\n"));
    page.tell(format_args!("$var wire 1 {c}3 D3 $end\n$var wire 1 {c}2 D2 $end\n"));
    page.tell(format_args!("$var wire 1 {c}1 D1 $end\n$var wire 1 {c}0 D0 $end\n"));
    page.words(b"$upscope $end\n");
}

// The values of the wires of a scope that have changed.
fn values(page: &mut Page, place: usize, changed: u8, mark: u8) {
    let c = letter(place);
    for (line, name) in LINES {
        if changed & line != 0 {
            let value = if mark & line == 0 { 0 } else { 1 };
            page.tell(format_args!("{value}{c}{name}\n"));
        }
    }
    if changed % 16 != 0 {
        page.tell(format_args!("b{:04b} {c}n\n", mark % 16));
    }
}

// The letter by which the wires of a scope are known.
fn letter(place: usize) -> char {
    char::from(
        b"abcdefghijklmnopqrstuv"
            .get(place)
            .copied()
            .unwrap_or(b' '),
    )
}

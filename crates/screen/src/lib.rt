// A screen of 24 rows and 80 columns: its state, and what a byte makes of it.

#![tactic(auto)]

ghost use Rattle.std.specs.Prelude.{◌≡◌, cond, false, ◌+◌, ◌-◌, ltb};
ghost use Rattle.screen.specs.Screen.{at, reading, backward, forward, advanced, controlled, placed, protected, guarded, ordered, skipped, skipping, sequence_of, commanded, unescaped, with_byte, new_screen, scrolling, wrapping, asking};

// The sequence that is being read.
#[derive(Clone, Copy, Debug, PartialEq, Eq)]
pub enum Sequence {
    // None.
    Plain,
    // The byte behind an escape comes next.
    Escape,
    // Set cursor: the row comes next, or the column behind this row.
    Row,
    Column(u8),
    // So many arguments are still to be skipped.
    Skips(u8),
}

#[derive(Clone, Copy, Debug, PartialEq, Eq)]
pub struct Screen {
    // Where the cursor is.
    pub row: u8,
    pub column: u8,
    // Scroll mode, else page mode; and whether lines wrap.
    pub scrolls: bool,
    pub wraps: bool,
    // Whether the top and the bottom line are protected.
    pub top: bool,
    pub bottom: bool,
    // Whether the next read is to answer the cursor's address.
    pub asked: bool,
    pub sequence: Sequence,
}

impl Screen {
    // A screen as open and reset leave it.
    pub fn new() -> Screen
        ensures { result ≡ new_screen }
    {
        Screen {
            row: 0,
            column: 0,
            scrolls: true,
            wraps: true,
            top: false,
            bottom: false,
            asked: false,
            sequence: Sequence::Plain,
        }
    }

    // After the cursor's address was answered.
    pub fn answered(mut self) -> Screen
        ensures { result ≡ asking self false }
    {
        self.asked = false;
        self
    }
}

// What a byte makes of a screen.
pub fn with_byte(s: Screen, b: u8) -> Screen
    ensures { result ≡ with_byte s b }
{
    match s.sequence {
        Sequence::Plain => unescaped(s, b),
        Sequence::Escape => commanded(s, b),
        Sequence::Row => reading(s, Sequence::Column(b)),
        Sequence::Column(row) => placed(reading(s, Sequence::Plain), row, b),
        Sequence::Skips(n) => reading(s, after_one(n)),
    }
}

// The first and the last unprotected line, and how many there are.
pub fn first_line(top: bool) -> u8
    ensures { result ≡ cond top 1 0 }
{
    if top { 1 } else { 0 }
}

pub fn last_line(bottom: bool) -> u8
    ensures { result ≡ cond bottom 22 23 }
{
    if bottom { 22 } else { 23 }
}

pub fn lines(top: bool, bottom: bool) -> u8
    ensures { result ≡ cond bottom 22 23 + 1 - cond top 1 0 }
{
    last_line(bottom) + 1 - first_line(top)
}

// With the cursor elsewhere, or another sequence being read. Screens are made field by field, here and below: the fields then stay in
// registers, where those of a copy are packed and unpacked for each byte of a text. With `..s` in their place a text of set cursors was slower.
fn at(s: Screen, row: u8, column: u8) -> Screen
    ensures { result ≡ at s row column }
{
    let sequence = s.sequence;
    Screen {
        row,
        column,
        scrolls: s.scrolls,
        wraps: s.wraps,
        top: s.top,
        bottom: s.bottom,
        asked: s.asked,
        sequence,
    }
}

fn reading(s: Screen, sequence: Sequence) -> Screen
    ensures { result ≡ reading s sequence }
{
    Screen {
        row: s.row,
        column: s.column,
        scrolls: s.scrolls,
        wraps: s.wraps,
        top: s.top,
        bottom: s.bottom,
        asked: s.asked,
        sequence,
    }
}

// A byte while no sequence is being read.
fn unescaped(s: Screen, b: u8) -> Screen
    ensures { result ≡ unescaped s b }
{
    if b < 0x20 {
        return controlled(s, b);
    }
    advanced(s)
}

fn controlled(s: Screen, b: u8) -> Screen
    ensures { result ≡ controlled s b }
{
    match b {
        0x08 => backward(s),
        0x0A => at(s, fed_row(s.row, s.scrolls, s.top, s.bottom), s.column),
        0x0B => at(s, up_row(s.row, s.scrolls, s.top, s.bottom), s.column),
        0x0C => forward(s),
        0x0D => at(s, s.row, 0),
        0x1B => reading(s, Sequence::Escape),
        0x1F => at(s, first_line(s.top), 0),
        _ => s,
    }
}

fn backward(s: Screen) -> Screen
    ensures { result ≡ backward s }
{
    if 0 < s.column {
        return at(s, s.row, s.column - 1);
    }
    if s.wraps {
        return at(s, up_row(s.row, false, s.top, s.bottom), 79);
    }
    s
}

fn forward(s: Screen) -> Screen
    ensures { result ≡ forward s }
{
    if s.column < 79 {
        return at(s, s.row, s.column + 1);
    }
    if s.wraps {
        return at(s, fed_row(s.row, false, s.top, s.bottom), 0);
    }
    s
}

fn advanced(s: Screen) -> Screen
    ensures { result ≡ advanced s }
{
    let column = s.column;
    if column < 79 {
        return at(s, s.row, column + 1);
    }
    if s.wraps {
        return at(s, fed_row(s.row, s.scrolls, s.top, s.bottom), 0);
    }
    s
}

// The row after a line feed, and after a line up.
fn fed_row(row: u8, scrolls: bool, top: bool, bottom: bool) -> u8
    ensures { result ≡ cond (ltb row (cond bottom 22 23)) (row + 1) (cond scrolls row (cond top 1 0)) }
{
    if row < last_line(bottom) {
        return row + 1;
    }
    if scrolls {
        return row;
    }
    first_line(top)
}

fn up_row(row: u8, scrolls: bool, top: bool, bottom: bool) -> u8
    ensures { result ≡ cond (ltb (cond top 1 0) row) (row - 1) (cond scrolls row (cond bottom 22 23)) }
{
    if first_line(top) < row {
        return row - 1;
    }
    if scrolls {
        return row;
    }
    last_line(bottom)
}

// The byte behind an escape.
fn commanded(s: Screen, b: u8) -> Screen
    ensures { result ≡ commanded s b }
{
    ordered(reading(s, sequence_of(s, b)), b)
}

fn ordered(s: Screen, b: u8) -> Screen
    ensures { result ≡ ordered s b }
{
    match b {
        0x4D => modes(s, true, s.wraps, s.asked),
        0x6D => modes(s, false, s.wraps, s.asked),
        0x52 => at(s, s.row, 0),
        0x34 => modes(s, s.scrolls, false, s.asked),
        0x35 => modes(s, s.scrolls, true, s.asked),
        0x39 => modes(s, s.scrolls, s.wraps, true),
        _ => guarded(s, b),
    }
}

fn modes(s: Screen, scrolls: bool, wraps: bool, asked: bool) -> Screen
    ensures { result ≡ asking (wrapping (scrolling s scrolls) wraps) asked }
{
    let sequence = s.sequence;
    Screen {
        row: s.row,
        column: s.column,
        scrolls,
        wraps,
        top: s.top,
        bottom: s.bottom,
        asked,
        sequence,
    }
}

fn guarded(s: Screen, b: u8) -> Screen
    ensures { result ≡ guarded s b }
{
    match b {
        0x30 => protected(s, true, s.bottom),
        0x31 => protected(s, false, s.bottom),
        0x32 => protected(s, s.top, true),
        0x33 => protected(s, s.top, false),
        _ => s,
    }
}

fn protected(s: Screen, top: bool, bottom: bool) -> Screen
    ensures { result ≡ protected s top bottom }
{
    let sequence = s.sequence;
    Screen {
        row: nearest(top, bottom, s.row),
        column: s.column,
        scrolls: s.scrolls,
        wraps: s.wraps,
        top,
        bottom,
        asked: s.asked,
        sequence,
    }
}

// The unprotected line that is nearest to a row.
fn nearest(top: bool, bottom: bool, row: u8) -> u8
    ensures { result ≡ cond (ltb row (cond top 1 0)) (cond top 1 0) (cond (ltb (cond bottom 22 23) row) (cond bottom 22 23) row) }
{
    row.clamp(first_line(top), last_line(bottom))
}

fn placed(s: Screen, row: u8, column: u8) -> Screen
    ensures { result ≡ placed s row column }
{
    if row < 24 && column < 80 {
        return at(s, nearest(s.top, s.bottom, row), column);
    }
    at(s, s.row, s.column)
}

fn sequence_of(s: Screen, b: u8) -> Sequence
    ensures { result ≡ sequence_of s b }
{
    if b == 0x3D {
        return Sequence::Row;
    }
    skipping(skipped(s, b))
}

fn skipped(s: Screen, b: u8) -> u8
    ensures { result ≡ skipped s b }
{
    let n = lines(s.top, s.bottom);
    match b {
        0x36 | 0x37 | 0x4B | 0x4C => n,
        0x2E | 0x43 | 0x47 | 0x50 => 1,
        0x42 => 9,
        0x53 => 2,
        _ => 0,
    }
}

fn skipping(n: u8) -> Sequence
    ensures { result ≡ skipping n }
{
    match n {
        0 => Sequence::Plain,
        _ => Sequence::Skips(n),
    }
}

// What is read behind one argument of n.
fn after_one(n: u8) -> Sequence
    ensures { result ≡ skipping (n - 1) }
{
    skipping(n.saturating_sub(1))
}

// What a text makes of a screen and of its cells, which stand in memory that the caller lends, row by row.

#![tactic(auto)]

mod cells;

ghost use Rattle.std.specs.Prelude.{◌≡◌, true, cond, ◌&&◌, ℕ, ◌+◌, ◌*◌, ◌≤◌, ◌<◌, leb, length, drop, get_or};
ghost use Rattle.std.proofs.Math.Seq.{paste};
ghost use Rattle.screen.specs.Screen.{On, is_on};
ghost use Rattle.screen.specs.Cells.{cells_with};
ghost use Rattle.screen.specs.Text.{with_text, cells_after, cleared};

use screen::{Screen, Sequence};

// How many bytes the cells take.
pub const CELLS: usize = 1920;

// What a text makes of the state and of the cells. Memory of fewer than `CELLS` bytes is not written, nor is any while the cursor of the
// state is where none can be.
pub fn show(s: Screen, text: &[u8], cells: &mut [u8]) -> Screen
    ensures { (result ≡ with_text s text.now) × (cells.new ≡ cells_after s text.now cells.old) }
{
    // The place in the text is counted by hand, as a turn takes as many bytes as a run puts. With the rest of it as a slice in the place of i, here
    // and in `run`, a text of set cursors took an eighth more instructions.
    let draws = is_drawn(s, cells.len());
    let mut after = s;
    let mut i = 0;
    while i < text.len() {
        let n = run(draws, after, text, i, cells);
        after.column += n as u8;
        i += n;
        if text.len() <= i {
            return after;
        }
        let b = text[i];
        draw(draws, after, b, cells);
        after = screen::with_byte(after, b);
        i += 1;
    }
    after
}

// All cells blank.
pub fn clear(cells: &mut [u8])
    ensures { cells.new ≡ cleared cells.old }
{
    if CELLS <= cells.len() {
        cells::erase(cells, 0, CELLS);
    }
}

// Whether the cursor is on an unprotected line and in a column, and n bytes hold the cells.
fn is_drawn(s: Screen, n: usize) -> bool
    ensures { result ≡ (is_on s && leb 1920 n) }
{
    screen::first_line(s.top) <= s.row
        && s.row <= screen::last_line(s.bottom)
        && s.column < 80
        && CELLS <= n
}

// The characters from byte i of a text on that stay within the cursor's line, put into the cells at once: how many they are. None where
// nothing is drawn, nor while a sequence is being read.
fn run(draws: bool, s: Screen, text: &[u8], i: usize, cells: &mut [u8]) -> usize
    requires { (i < length text.now) × (draws ≡ true → On s × (1920 ≤ length cells.old)) }
    ensures draws_value { (0 < result → (draws ≡ true) × ((s.column + result < 80) × (s.sequence ≡ Sequence.Plain))) × (s.column + result < 256) }
    ensures result_in_bounds { (i + result ≤ length text.now) × ((k : ℕ) → k < result → 0x20 ≤ get_or text.now (i + k) 0) }
    ensures cells_after { cells.new ≡ paste cells.old (80 * s.row + s.column) (drop i text.now) result }
{
    if draws {
        let most = room(s, text[i]);
        if 0 < most {
            return put(text, i, cells, cells::place(s.row, s.column), most);
        }
    }
    0
}

// What a byte makes of the cells, where they are drawn.
fn draw(draws: bool, s: Screen, b: u8, cells: &mut [u8])
    requires { draws ≡ true → On s × (1920 ≤ length cells.old) }
    ensures { cells.new ≡ cond draws (cells_with s b cells.old) cells.old }
{
    if draws {
        cells::draw(s, b, cells);
    }
}

// Puts the characters from byte i of a text on into the cells from a place on, no more than `most`, and answers how many they are.
fn put(text: &[u8], i: usize, cells: &mut [u8], place: usize, most: usize) -> usize
    requires { (i ≤ length text.now) × (place + most ≤ length cells.old) }
    ensures upper_bound { (result ≤ most) × ((i + result ≤ length text.now) × ((k : ℕ) → k < result → 0x20 ≤ get_or text.now (i + k) 0)) }
    ensures cells_after { cells.new ≡ paste cells.old place (drop i text.now) result }
{
    let end = most.min(text.len() - i);
    for (n, b) in text[i..i + end].iter().enumerate() {
        if *b < 0x20 {
            return n;
        }
        cells[place + n] = *b;
    }
    end
}

// How many characters stay within the cursor's line: none while a sequence is being read, nor where the first byte is a control code.
fn room(s: Screen, b: u8) -> usize
    requires { s.column < 80 }
    ensures { (s.column + result < 80) × (0 < result → s.sequence ≡ Sequence.Plain) }
{
    if let Sequence::Plain = s.sequence
        && 0x20 <= b
    {
        return 79 - s.column as usize;
    }
    0
}

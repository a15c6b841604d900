// What a byte makes of the cells.
ghost use Rattle.std.specs.Prelude.{◌≡◌, cond, ◌+◌, ◌-◌, ◌*◌, ◌≤◌, length};
ghost use Rattle.screen.specs.Screen.{On};
ghost use Rattle.screen.specs.Cells.{erased, closed_up, opened_up, fed_cells, up_cells, controlled_cells, commanded_cells, unescaped_cells, cells_with};

use screen::{Screen, Sequence};

// What a byte makes of a screen's cells. Arguments show nothing. What is required here and below is no invariant of a type: a `Screen` may be
// one whose cursor is where none can be (`text::show` answers for those too), and a struct that lends cells beside it would have to be taken
// apart and made again at each call.
pub(crate) fn draw(s: Screen, b: u8, cells: &mut [u8])
    requires { On s × (1920 ≤ length cells.old) }
    ensures { cells.new ≡ cells_with s b cells.old }
{
    match s.sequence {
        Sequence::Plain => unescaped(s, b, cells),
        Sequence::Escape => commanded(s, b, cells),
        Sequence::Row | Sequence::Column(_) | Sequence::Skips(_) => {}
    }
}

// A byte while no sequence is being read: a control code, or a character at the cursor.
fn unescaped(s: Screen, b: u8, cells: &mut [u8])
    requires { On s × (1920 ≤ length cells.old) }
    ensures { cells.new ≡ unescaped_cells s b cells.old }
{
    if b < 0x20 {
        controlled(s, b, cells);
        return;
    }
    let place = place(s.row, s.column);
    cells[place] = b;
    if s.column < 79 {
        return;
    }
    if s.wraps {
        feed(s, cells);
    }
}

fn controlled(s: Screen, b: u8, cells: &mut [u8])
    requires { On s × (1920 ≤ length cells.old) }
    ensures { cells.new ≡ controlled_cells s b cells.old }
{
    let first = 80 * screen::first_line(s.top) as usize;
    let all = 80 * screen::lines(s.top, s.bottom) as usize;
    match b {
        0x0A => feed(s, cells),
        0x0B => move_up(s, cells),
        0x1F => erase(cells, first, all),
        _ => {}
    }
}

// Line feed and line up.
fn feed(s: Screen, cells: &mut [u8])
    requires { 1920 ≤ length cells.old }
    ensures { cells.new ≡ fed_cells s cells.old }
{
    if s.row < screen::last_line(s.bottom) {
        return;
    }
    if s.scrolls {
        let first = 80 * screen::first_line(s.top) as usize;
        let n = 80 * screen::lines(s.top, s.bottom) as usize;
        close_up(cells, first, n, 80);
    }
}

fn move_up(s: Screen, cells: &mut [u8])
    requires { 1920 ≤ length cells.old }
    ensures { cells.new ≡ up_cells s cells.old }
{
    if screen::first_line(s.top) < s.row {
        return;
    }
    if s.scrolls {
        let first = 80 * screen::first_line(s.top) as usize;
        let n = 80 * screen::lines(s.top, s.bottom) as usize;
        open_up(cells, first, n, 80);
    }
}

// The byte behind an escape.
fn commanded(s: Screen, b: u8, cells: &mut [u8])
    requires { On s × (1920 ≤ length cells.old) }
    ensures { cells.new ≡ commanded_cells s b cells.old }
{
    let column = s.column as usize;
    let line = place(s.row, 0);
    let place = place(s.row, s.column);
    let to_end = 80 - column;
    let down = lines_down(s.row, s.bottom);
    let page = down - column;
    match b {
        0x51 => open_up(cells, place, to_end, 1),
        0x57 => close_up(cells, place, to_end, 1),
        0x45 => open_up(cells, line, down, 80),
        0x52 => close_up(cells, line, down, 80),
        0x54 => erase(cells, place, to_end),
        0x59 => erase(cells, place, page),
        _ => {}
    }
}

// The place of a cell, and how many cells there are from a line on to the end of the unprotected lines.
pub(crate) fn place(row: u8, column: u8) -> usize
    ensures { result ≡ 80 * row + column }
{
    80 * row as usize + column as usize
}

fn lines_down(row: u8, bottom: bool) -> usize
    requires { row ≤ cond bottom 22 23 }
    ensures { result ≡ 80 * (cond bottom 22 23 + 1 - row) }
{
    80 * (screen::last_line(bottom) + 1 - row) as usize
}

// n cells from a place on, blank.
pub(crate) fn erase(cells: &mut [u8], from: usize, n: usize)
    requires { from + n ≤ length cells.old }
    ensures { cells.new ≡ erased from n cells.old }
{
    cells[from..from + n].fill(0x20);
}

// n cells from a place on, closed up by g.
fn close_up(cells: &mut [u8], from: usize, n: usize, g: usize)
    requires { (from + n ≤ length cells.old) × (g ≤ n) }
    ensures { cells.new ≡ closed_up from n g cells.old }
{
    cells.copy_within(from + g..from + n, from);
    erase(cells, from + (n - g), g);
}

// n cells from a place on, opened up by g.
fn open_up(cells: &mut [u8], from: usize, n: usize, g: usize)
    requires { (from + n ≤ length cells.old) × (g ≤ n) }
    ensures { cells.new ≡ opened_up from n g cells.old }
{
    cells.copy_within(from..from + (n - g), from + g);
    erase(cells, from, g);
}

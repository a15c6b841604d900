// A screen of 24 rows and 80 columns as a picture of letters. Bytes that are no letter are shown as dots.
use page::{Out, Page};

// What its frame marks: the row and column of the cursor, and which lines are protected.
#[derive(Clone, Copy)]
pub struct Frame {
    pub row: Option<u64>,
    pub column: Option<u64>,
    pub top: bool,
    pub bottom: bool,
}

const ROWS: usize = 24;

const COLUMNS: usize = 80;

// Shows the cells in a frame. Rows are numbered, and columns in tens; > and < stand at the cursor's row, v and ^ at its column, = at a
// protected line.
pub fn show(out: Out, cells: &[u8], frame: Frame) {
    let mut page = Page::new();
    edge(&mut page, frame, b'v');
    for row in 0..ROWS {
        page.tell(format_args!("      {row:>2}  "));
        page.letter(side(frame, row, b'>'));
        cells_of(&mut page, cells, row);
        page.letter(side(frame, row, b'<'));
        page.letter(b'\n');
    }
    edge(&mut page, frame, b'^');
    page.write(crate::shown(out));
}

// Writes the cells as 24 lines of text; whether that succeeded.
pub fn write(out: Out, cells: &[u8]) -> bool {
    let mut page = Page::new();
    for row in 0..ROWS {
        cells_of(&mut page, cells, row);
        page.letter(b'\n');
    }
    page.write(out)
}

// Whether the front of a file is that of such lines, or empty.
pub fn is_screen(front: &[u8]) -> bool {
    front.is_empty() || [80, 161, 242].iter().all(|i| front.get(*i) == Some(&b'\n'))
}

// The cells of a row, blanks where there are none.
fn cells_of(page: &mut Page, cells: &[u8], row: usize) {
    let cells = cells.chunks(COLUMNS).nth(row).unwrap_or(&[]);
    for column in 0..COLUMNS {
        page.letter(match cells.get(column) {
            Some(b) if page::is_letter(*b) => *b,
            Some(_) => b'.',
            None => b' ',
        });
    }
}

// What stands beside a row.
fn side(frame: Frame, row: usize, cursor: u8) -> u8 {
    if (frame.top & (row == 0)) | (frame.bottom & (row == ROWS - 1)) {
        b'='
    } else if frame.row == Some(row as u64) {
        cursor
    } else {
        b'|'
    }
}

// The edge above the rows, or below them.
fn edge(page: &mut Page, frame: Frame, cursor: u8) {
    page.words(b"          +");
    for column in 0..COLUMNS {
        page.letter(if frame.column == Some(column as u64) {
            cursor
        } else if column % 10 == 0 {
            page::digit((column / 10) as u8)
        } else {
            b'-'
        });
    }
    page.words(b"+\n");
}

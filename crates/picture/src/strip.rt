// The lines as a picture of letters, one column to a round: - high, _ low, the nibble in hexadecimal, and who holds HSK low or places
// a nibble. Only rounds in which a line is low are shown, in strips of up to 96 columns.
ghost use Rattle.std.specs.Prelude.{◌≤◌};

use crate::{ALL, Marks};
use page::{Out, Page};

pub const WIDTH: usize = 96;

// The mark of the lines in a round, and who pulls.
#[derive(Clone, Copy)]
struct Column {
    mark: u8,
    who: u8,
}

// The columns of a picture, up to as many as a line has room for. There is no heap, so they are counted.
#[derive(Drop)]
pub struct Strip {
    columns: [Column; WIDTH],
    n: usize,
    ghost within: { n ≤ 96 },
}

impl Strip {
    // No column stands on it.
    pub fn new() -> Strip {
        Strip {
            columns: [Column { mark: 0, who: b' ' }; WIDTH],
            n: 0,
        }
    }

    fn columns(&self) -> &[Column] {
        &self.columns[..self.n]
    }

    pub fn len(&self) -> usize
        ensures { result ≤ 96 }
    {
        self.n
    }

    pub fn clear(&mut self) {
        self.n = 0;
    }

    // One column more, from the marks of a round.
    pub fn push(&mut self, marks: &Marks) {
        if self.n < WIDTH {
            self.columns[self.n] = Column {
                mark: marks[ALL],
                who: holder(marks),
            };
            self.n += 1;
        }
    }

    // The picture of its rounds, up to this one.
    pub fn show(&self, out: Out, last: u64) {
        let columns = self.columns();
        let mut page = Page::new();
        let first = last.saturating_add(1).saturating_sub(columns.len() as u64);
        page.tell(format_args!("          rounds {first} to {last}"));
        row(&mut page, b"BAV ", columns, |c| level(c.mark & 32));
        row(&mut page, b"HSK ", columns, |c| level(c.mark & 16));
        row(&mut page, b"D   ", columns, |c| nibble(c.mark));
        row(&mut page, b"by  ", columns, |c| c.who);
        page.letter(b'\n');
        page.write(crate::shown(out));
    }
}

// Who pulls HSK or a data line: C the controller, a to p units by their place, w to z stand-ins, + several, a blank for nobody.
fn holder(marks: &Marks) -> u8 {
    let mut who = b' ';
    for (mark, letter) in marks.iter().zip(LETTERS) {
        if (mark % 32 < 31) & (*letter != b' ') {
            who = if who == b' ' { *letter } else { b'+' };
        }
    }
    who
}

// A blank for all of them together.
const LETTERS: &[u8; 22] = b"abcdefghijklmnopC wxyz";

// A row with its name before it: a letter of each column.
fn row<F: Fn(Column) -> u8>(page: &mut Page, name: &[u8], columns: &[Column], letter: F)
    requires { F.IsAlwaysCallable letter }
{
    page.words(b"\n          ");
    page.words(name);
    for column in columns {
        page.letter(letter(*column));
    }
}

fn level(line: u8) -> u8 {
    if line == 0 { b'_' } else { b'-' }
}

fn nibble(mark: u8) -> u8 {
    match mark % 16 {
        15 => b'.',
        n => page::digit(n),
    }
}

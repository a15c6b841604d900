// The lines as pictures, and a screen. A mark is what one party leaves on the lines, or all of them together: 32 where BAV is high, 16 where HSK is,
// and the nibble. The marks of a round are those of units 0 to 15, of the controller, of the lines, and of stand-ins 0 to 3.

#![tactic(auto)]

pub mod dump;
pub mod screen;
pub mod strip;

ghost use Rattle.std.specs.Prelude.{◌≤◌};

use line::Lines;
use page::Out;

// The marks of a round.
pub type Marks = [u8; 22];

pub const CONTROLLER: usize = 16;

pub const ALL: usize = 17;

// The first of the stand-ins.
pub const STAND_INS: usize = 18;

// Nothing is pulled.
pub const RELEASED: u8 = 63;

pub fn mark(l: Lines) -> u8
    ensures { result ≤ 63 }
{
    let bav = if l.bav { 0 } else { 32 };
    let hsk = if l.hsk { 0 } else { 16 };
    bav + hsk + l.nibble % 16
}

// Where a picture goes. After `show failures`, while nothing else is said, that is descriptor 0, as it always was.
fn shown(out: Out) -> Out {
    out.or(Some(0))
}

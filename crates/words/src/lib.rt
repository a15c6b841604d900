// Numbers, flags and the line machines in the words that a caller lends.

#![tactic(auto)]

ghost use Rattle.std.specs.Prelude.{◌≡◌, ◌%◌, ◌≤◌};
ghost use Rattle.line.specs.Line.{hear_of, taken_of};
ghost use Rattle.words.specs.Words.{number_in, flag_of, bit, flag_in, tag_in, listener_of, listener_tag, listener_in, sender_of, sender_tag, sender_in, nibble_in, command_of, lines_number};

use header::Command;
use line::{Lines, Listener, Sender};

// A number in the low bits of a word.
pub fn number8(word: u32) -> u8
    ensures { result ≡ word % 256 }
{
    (word % 256) as u8
}

pub fn number16(word: u32) -> u16
    ensures { result ≡ word % 65536 }
{
    (word % 65536) as u16
}

// The word with another number there.
pub fn with8(word: u32, n: u8) -> u32
    ensures { result ≡ number_in 256 word n }
{
    word / 256 * 256 + n as u32
}

pub fn with16(word: u32, n: u16) -> u32
    ensures { result ≡ number_in 65536 word n }
{
    word / 65536 * 65536 + n as u32
}

// A flag in the lowest bit of a word.
pub fn flag(word: u32) -> bool
    ensures { result ≡ flag_of word }
{
    word % 2 == 1
}

pub fn bit(b: bool) -> u32
    ensures { (result ≡ bit b) × (result ≤ 1) }
{
    u32::from(b)
}

pub fn with_flag(word: u32, b: bool) -> u32
    ensures { result ≡ flag_in word b }
{
    word / 2 * 2 + bit(b)
}

// The word of a tag that has so many cases: written only where the word does not mean that tag already.
pub fn with_tag(word: u32, cases: u32, tag: u32) -> u32
    ensures { result ≡ tag_in cases word tag }
{
    if word < cases || tag != 0 { tag } else { word }
}

// A listener in the word of its tag.
pub fn listener(word: u32) -> Listener
    ensures { result ≡ listener_of word }
{
    match word {
        1 => Listener::Holding,
        2 => Listener::Waiting,
        _ => Listener::Ready,
    }
}

pub fn with_listener(word: u32, ear: Listener) -> u32
    ensures { result ≡ listener_in word ear }
{
    with_tag(word, 3, listener_tag(ear))
}

fn listener_tag(ear: Listener) -> u32
    ensures { result ≡ listener_tag ear }
{
    match ear {
        Listener::Ready => 0,
        Listener::Holding => 1,
        Listener::Waiting => 2,
    }
}

// A listener's round, in the word of its tag: whether it takes the nibble that it sees, and the word afterwards.
pub fn takes(word: u32, low: bool) -> bool
    ensures { result ≡ taken_of (listener_of word) low }
{
    !matches!(word, 1 | 2) && low
}

pub fn heard(word: u32, low: bool, busy: bool) -> u32
    ensures { result ≡ listener_in word (hear_of (listener_of word) low busy) }
{
    match word {
        1 => if busy { 1 } else { 2 },
        2 => if low { 2 } else { 0 },
        _ => if low { 1 } else { word },
    }
}

// A sender in the word of its tag and the word of its nibble.
pub fn sender(word: u32, nibble: u32) -> Sender
    ensures { result ≡ sender_of word nibble }
{
    match word {
        1 => Sender::Placed(number8(nibble)),
        2 => Sender::Kept(number8(nibble)),
        _ => Sender::Next,
    }
}

pub fn with_sender(word: u32, s: Sender) -> u32
    ensures { result ≡ sender_in word s }
{
    with_tag(word, 3, sender_tag(s))
}

fn sender_tag(s: Sender) -> u32
    ensures { result ≡ sender_tag s }
{
    match s {
        Sender::Next => 0,
        Sender::Placed(_) => 1,
        Sender::Kept(_) => 2,
    }
}

pub fn with_nibble(word: u32, s: Sender) -> u32
    ensures { result ≡ nibble_in word s }
{
    match s {
        Sender::Next => word,
        Sender::Placed(n) | Sender::Kept(n) => with8(word, n),
    }
}

// The command of five words.
pub fn command(
    device: u32,
    code: u32,
    logical_unit: u32,
    record_number: u32,
    buffer_length: u32,
) -> Command
    ensures { result ≡ command_of device code logical_unit record_number buffer_length }
{
    Command {
        device: number8(device),
        command: number8(code),
        logical_unit: number8(logical_unit),
        record_number: number16(record_number),
        buffer_length: number16(buffer_length),
    }
}

// Pulled lines in one number: the nibble, 16 for HSK, 32 for BAV.
pub fn lines(l: Lines) -> u32
    ensures { result ≡ lines_number l }
{
    (l.nibble % 16) as u32 + 16 * bit(l.hsk) + 32 * bit(l.bav)
}

// Runs messages and device codes on the papers' worked examples and on both sides of each limit, and writes what each
// comes to. Bytes, command codes and statuses are written in hexadecimal, all else in decimal.

#![tactic(auto)]

mod messages;
mod readings;
mod rows;
mod writings;

use messages::Message;
use page::STDOUT;

// Message M1 and its data, and the data of M2.
const M1: Message = Message::OPEN;

const M1_DATA: [u8; 3] = [0x50, 0x00, 0xC0];

const M2_DATA: [u8; 4] = [0x50, 0x00, 0x00, 0x00];

fn main() {
    let mut long = [0u8; 65536];
    for (i, b) in long.iter_mut().enumerate() {
        *b = (i % 251) as u8;
    }
    examples();
    cuts();
    buffers(&long);
    nibbles(&long);
}

// The scan of 7.1 prints O and 0 alike; its words, odd parity, make the last byte the letter O. Its response is an example of a message: a unit
// that is asked for length 0 accepts 128, not 80.
fn examples() {
    page::say(
        STDOUT,
        b"Worked examples (source document 000, 7.1 and 7.2)\n7.1 open, command\n",
    );
    writings::example(Message::OPEN, b"\x00\x00\x80B=4800,P=O");
    page::say(STDOUT, b"7.1 open, response\n");
    writings::example(Message::DONE, &M2_DATA);
    page::say(STDOUT, b"7.2 read, command\n");
    writings::example(Message::READ, b"");
    page::say(STDOUT, b"7.2 read, response\n");
    writings::example(Message::DONE, b"27295");
}

fn cuts() {
    page::say(
        STDOUT,
        b"\nReading the first bytes of M1 and a second command behind it\n  all",
    );
    readings::cuts(
        M1,
        b"\x14\x00\x01\x00\x00\x04\x00\x03\x00\x50\x00\xC0\x14\x03\x01\x00\x00\x50\x00\x00\x00",
    );
    page::say(STDOUT, b"  M10, 9 bytes that announce 1: ");
    readings::reading(M1, b"\x14\x00\x01\x00\x00\x04\x00\x01\x00", ", ");
    page::say(
        STDOUT,
        b"\nReading the first bytes of M2 and a second response behind it\n  all",
    );
    readings::cuts(Message::DONE, b"\x04\x00\x50\x00\x00\x00\x00\x00\x00\x05");
}

fn buffers(long: &[u8; 65536]) {
    page::say(
        STDOUT,
        b"\nWriting into buffers of EE: room to spare, one byte short, exactly as long\nCommand M1, data length 3\n",
    );
    writings::rooms(M1, &M1_DATA);
    writings::lengths("Command", Message::WRITE, long);
    page::say(STDOUT, b"Response M2, data length 4\n");
    writings::rooms(Message::DONE, &M2_DATA);
    writings::lengths("Response", Message::UNSUPPORTED, long);
}

fn nibbles(long: &[u8; 65536]) {
    page::say(STDOUT, b"\nNibbles, and two past the end\nM1, command");
    rows::nibbles(M1, &M1_DATA, 26);
    page::say(STDOUT, b"M2, response");
    rows::nibbles(Message::DONE, &M2_DATA, 16);
    page::say(STDOUT, b"Command, data length 65535");
    rows::each(M1, word::front(long, 65535), 131086..131090);
    page::say(STDOUT, b"\nClasses of the device codes");
    rows::classes();
}

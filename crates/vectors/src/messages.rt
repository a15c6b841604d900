// The messages that are run, and what they come to when they are written and read.
use header::Command;
use std::fmt;

// A command of the papers, or a response with a status.
#[derive(Clone, Copy)]
pub enum Message {
    Command(Command),
    Response(u8),
}

// The number of a refusal.
#[derive(Clone, Copy)]
pub struct Refusal(pub u32);

impl Message {
    // The open of source document 000, 7.1, and that of M1: they differ in their data alone.
    pub const OPEN: Message = Message::Command(Command {
        device: 20,
        command: 0x00,
        logical_unit: 1,
        record_number: 0,
        buffer_length: 4,
    });

    // The read of 7.2.
    pub const READ: Message = Message::Command(Command {
        device: 20,
        command: 0x03,
        logical_unit: 1,
        record_number: 0,
        buffer_length: 80,
    });

    // A command whose header shows by its bytes which field each is of.
    pub const WRITE: Message = Message::Command(Command {
        device: 20,
        command: 0x04,
        logical_unit: 7,
        record_number: 0x0201,
        buffer_length: 0x0403,
    });

    pub const DONE: Message = Message::Response(0x00);

    pub const UNSUPPORTED: Message = Message::Response(0x0D);

    // How many bytes stand before its data, and how many it has without any.
    pub fn head(self) -> usize {
        match self {
            Message::Command(_) => 9,
            Message::Response(_) => 2,
        }
    }

    pub fn least(self) -> usize {
        match self {
            Message::Command(_) => 9,
            Message::Response(_) => 3,
        }
    }

    // Writes it with data into a buffer; how long it is.
    pub fn write(self, data: &[u8], out: &mut [u8]) -> Result<usize, Refusal> {
        let written = match self {
            Message::Command(c) => command::write(c, data, out),
            Message::Response(status) => response::write(data, status, out),
        };
        written.map_err(|e| Refusal(u32::from(e)))
    }

    // What a slice is read as that should hold such a message.
    pub fn read(self, s: &[u8]) -> Result<Message, Refusal> {
        let read = match self {
            Message::Command(_) => command::read(s).map(Message::Command),
            Message::Response(_) => response::read(s).map(Message::Response),
        };
        read.map_err(|e| Refusal(u32::from(e)))
    }

    // The data field of such a message in a slice.
    pub fn data_of(self, s: &[u8]) -> &[u8] {
        match self {
            Message::Command(_) => command::data_of(s),
            Message::Response(_) => response::data_of(s),
        }
    }

    // Nibble i of it with its data.
    pub fn nibble(self, data: &[u8], i: usize) -> u8 {
        match self {
            Message::Command(c) => command::nibble(c, data, i),
            Message::Response(status) => response::nibble(data, status, i),
        }
    }
}

impl fmt::Display for Message {
    fn fmt<W: fmt::Write>(&self, f: &mut fmt::Formatter<W>) -> fmt::Result {
        match self {
            Message::Command(c) => write!(
                f,
                "device {}, command {:02X}, logical unit {}, record number {}, buffer length {}",
                c.device, c.command, c.logical_unit, c.record_number, c.buffer_length
            ),
            Message::Response(status) => write!(f, "status {status:02X}"),
        }
    }
}

impl fmt::Display for Refusal {
    fn fmt<W: fmt::Write>(&self, f: &mut fmt::Formatter<W>) -> fmt::Result {
        write!(f, "refusal {}", self.0)
    }
}

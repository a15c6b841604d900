// What stands before a command's data: device code 1, command code 1, logical unit 1, record number 2, buffer length 2 and
// data length 2.

#![tactic(auto)]

ghost use Rattle.std.specs.Prelude.{◌≡◌, [], set};
ghost use Rattle.message.specs.Format.{command_format, head_of};
ghost use Rattle.header.specs.Header.{fields_of, header_bytes, header_in};

// The fields of a command. Its data length is that of the data beside it.
#[derive(Clone, Copy, Debug, PartialEq, Eq)]
pub struct Command {
    pub device: u8,
    pub command: u8,
    pub logical_unit: u8,
    pub record_number: u16,
    pub buffer_length: u16,
}

// The nine bytes before n bytes of data.
pub fn bytes_of(c: Command, n: usize) -> [u8; 9]
    ensures { result ≡ head_of command_format (fields_of c) n }
{
    let [record_low, record_high] = c.record_number.to_le_bytes();
    let [buffer_low, buffer_high] = c.buffer_length.to_le_bytes();
    let [data_low, data_high, ..] = n.to_le_bytes();
    [
        c.device,
        c.command,
        c.logical_unit,
        record_low,
        record_high,
        buffer_low,
        buffer_high,
        data_low,
        data_high,
    ]
}

// The nine bytes before the data.
#[derive(Clone, Copy, Debug, PartialEq, Eq)]
pub struct Header {
    pub command: Command,
    pub data_length: u16,
}

impl Header {
    // All zero.
    pub fn new() -> Header
        ensures { result ≡ header_in [] }
    {
        Header {
            command: Command {
                device: 0,
                command: 0,
                logical_unit: 0,
                record_number: 0,
                buffer_length: 0,
            },
            data_length: 0,
        }
    }

    // With b as its byte i. There is no byte 9 or above.
    pub fn with(self, i: usize, b: u8) -> Header
        ensures { result ≡ header_in (set (header_bytes self) i b) }
    {
        let mut c = self.command;
        let mut n = self.data_length;
        match i {
            0 => c.device = b,
            1 => c.command = b,
            2 => c.logical_unit = b,
            3 => c.record_number = field::with_byte(c.record_number, 0, b),
            4 => c.record_number = field::with_byte(c.record_number, 1, b),
            5 => c.buffer_length = field::with_byte(c.buffer_length, 0, b),
            6 => c.buffer_length = field::with_byte(c.buffer_length, 1, b),
            7 => n = field::with_byte(n, 0, b),
            8 => n = field::with_byte(n, 1, b),
            _ => {}
        }
        Header {
            command: c,
            data_length: n,
        }
    }
}

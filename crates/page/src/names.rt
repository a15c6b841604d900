// The papers' names of commands (000, 4.3.2) and statuses (000, 4.4.3), and the number of a round.
use std::fmt;

// A status with its name, where the papers have one.
#[derive(Clone, Copy)]
pub struct Status(pub u8);

// A command's code with its name.
#[derive(Clone, Copy)]
pub struct Command(pub u8);

// A round, to the right in eight letters.
#[derive(Clone, Copy)]
pub struct Round(pub u64);

impl Status {
    fn name(self) -> &'static str {
        match self.0 {
            0x00 => " normal operation completion",
            0x01 => " device/file option error",
            0x02 => " attribute error",
            0x04 => " file/device not open error",
            0x05 => " file/device already open",
            0x08 => " data/file too long error",
            0x0A => " not requesting service",
            0x0C => " buffer size error",
            0x0D => " unsupported command error",
            0x0E => " file not opened for write",
            0x0F => " file not opened for read",
            0x11 => " file type (relative/sequential) not supported",
            0x13 => " append mode not supported",
            0x15 => " input mode not supported",
            0xFF => " bus time out error",
            _ => "",
        }
    }
}

impl Command {
    fn name(self) -> &'static str {
        match self.0 {
            0x00 => " open",
            0x01 => " close",
            0x03 => " read data",
            0x04 => " write data",
            0x08 => " service request enable",
            0x09 => " service request disable",
            0x0A => " service request poll",
            0xFE => " null operation",
            0xFF => " bus reset",
            _ => "",
        }
    }
}

impl fmt::Display for Status {
    fn fmt<W: fmt::Write>(&self, f: &mut fmt::Formatter<W>) -> fmt::Result {
        write!(f, "{:02X}{}", self.0, self.name())
    }
}

impl fmt::Display for Command {
    fn fmt<W: fmt::Write>(&self, f: &mut fmt::Formatter<W>) -> fmt::Result {
        write!(f, "{:02X}{}", self.0, self.name())
    }
}

impl fmt::Display for Round {
    fn fmt<W: fmt::Write>(&self, f: &mut fmt::Formatter<W>) -> fmt::Result {
        write!(f, "{:>8}  ", self.0)
    }
}

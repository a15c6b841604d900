// Messages and device classes.
ghost use Rattle.std.specs.Prelude.{◌≡◌, ◌<◌, length};
ghost use Rattle.command.specs.Command.{message_of};
ghost use Rattle.device.specs.Classes.{class_of};
ghost use Rattle.message.specs.Format.{command_format, response_format, bytes_of};
ghost use Rattle.message.specs.Nibbles.{nibble_in};
ghost use Rattle.response.specs.Response.{message_of as response·messageOf};
ghost use Rattle.words.specs.Words.{number};
ghost use Rattle.writer.specs.Numbers.{numbered};
ghost use Rattle.gateway.specs.Messages.{command_in, MessageRead, MessageWritten};

use header::Command;
use writer::WriteError;

// Reads a command into six words.
#[unsafe(no_mangle)]
pub extern "C" fn hexbus_command_read(message: &[u8], fields: &mut [u32; 6]) -> u32
    ensures { MessageRead command_format message.now fields.old result fields.new }
{
    match command::read(message) {
        Ok(c) => {
            *fields = [
                u32::from(c.device),
                u32::from(c.command),
                u32::from(c.logical_unit),
                u32::from(c.record_number),
                u32::from(c.buffer_length),
                length_in(command::data_of(message)),
            ];
            0
        }
        Err(e) => u32::from(e),
    }
}

// Writes a command with its data to the front of a buffer.
#[unsafe(no_mangle)]
pub extern "C" fn hexbus_command_write(fields: &[u32; 6], data: &[u8], out: &mut [u8]) -> u32
    ensures { MessageWritten command_format (message_of (command_in fields.now) «data».now) out.old result out.new }
{
    written(command::write(command_in(fields), data, out))
}

// A nibble of a command.
#[unsafe(no_mangle)]
pub extern "C" fn hexbus_command_nibble(fields: &[u32; 6], data: &[u8], i: usize) -> u8
    ensures { result ≡ nibble_in (bytes_of command_format (message_of (command_in fields.now) «data».now)) i }
{
    command::nibble(command_in(fields), data, i)
}

// Reads a response into two words.
#[unsafe(no_mangle)]
pub extern "C" fn hexbus_response_read(message: &[u8], fields: &mut [u32; 2]) -> u32
    ensures { MessageRead response_format message.now fields.old result fields.new }
{
    match response::read(message) {
        Ok(status) => {
            *fields = [u32::from(status), length_in(response::data_of(message))];
            0
        }
        Err(e) => u32::from(e),
    }
}

// Writes a response with its data to the front of a buffer.
#[unsafe(no_mangle)]
pub extern "C" fn hexbus_response_write(status: u8, data: &[u8], out: &mut [u8]) -> u32
    ensures { MessageWritten response_format (response·messageOf «data».now status) out.old result out.new }
{
    written(response::write(data, status, out))
}

// A nibble of a response.
#[unsafe(no_mangle)]
pub extern "C" fn hexbus_response_nibble(status: u8, data: &[u8], i: usize) -> u8
    ensures { result ≡ nibble_in (bytes_of response_format (response·messageOf «data».now status)) i }
{
    response::nibble(data, status, i)
}

// The class of a device code.
#[unsafe(no_mangle)]
pub extern "C" fn hexbus_class(code: u8) -> u8
    ensures { result ≡ class_of code }
{
    device::class_of(code)
}

// The command that six words say.
pub fn command_in(fields: &[u32; 6]) -> Command
    ensures { result ≡ command_in fields.now }
{
    let [
        device,
        command,
        logical_unit,
        record_number,
        buffer_length,
        _,
    ] = *fields;
    words::command(device, command, logical_unit, record_number, buffer_length)
}

// The length of a message's data, which is announced in two bytes.
fn length_in(data: &[u8]) -> u32
    requires { length «data».now < 65536 }
    ensures { result ≡ length «data».now }
{
    data.len() as u32
}

fn written(w: Result<usize, WriteError>) -> u32
    ensures { result ≡ number (numbered w) }
{
    match w {
        Ok(_) => 0,
        Err(e) => u32::from(e),
    }
}

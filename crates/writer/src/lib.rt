// Writing a message, of any format, into a lent buffer: each byte of the buffer is stored once. A struct of head, data and end is no
// plainer: a caller would make it for the one call, and `write` would take it apart.

#![tactic(auto)]

ghost use Rattle.std.specs.Prelude.{◌≡◌, ◌++◌, ◌+◌, ◌≤◌, leb, length, drop, is_some};
ghost use Rattle.message.specs.Writing.{writing, written};
ghost use Rattle.writer.specs.Numbers.{number, numbered};

// Why a message was not written into a lent buffer.
#[derive(Clone, Copy, Debug, PartialEq, Eq)]
pub enum WriteError {
    // Refusal 2: the data is over 65,535 bytes.
    TooLong,
    // Refusal 11: the buffer is too short for the message.
    NoRoom,
}

impl From<WriteError> for u32 {
    ghost from_gives = { λ e n. n ≡ number e };

    fn from(e: WriteError) -> u32 {
        match e {
            WriteError::TooLong => 2,
            WriteError::NoRoom => 11,
        }
    }
}

// Writes head, data and end, one after the other, to the front of a lent buffer; how many bytes they are. Bytes past them keep their
// values, and all do where it refuses.
pub fn write(head: &[u8], data: &[u8], end: &[u8], out: &mut [u8]) -> Result<usize, WriteError>
    ensures { (numbered result ≡ writing (length head.now + length end.now) (length «data».now) (length out.old)) × (out.new ≡ written head.now «data».now end.now out.old) }
{
    let n = data.len();
    if 65535 < n {
        return Err(WriteError::TooLong);
    }
    if rest(head.len(), n, end.len(), out.len()).is_none() {
        return Err(WriteError::NoRoom);
    }
    Ok(put(head, data, end, out))
}

// Puts head, data and end into a buffer that has room for them, each into the tail that starts behind the one before; how long
// they are together. Data comes last, so that nothing has to be kept while it is copied: 9 instructions a response less.
fn put(head: &[u8], data: &[u8], end: &[u8], out: &mut [u8]) -> usize
    requires { length head.now + length end.now + length «data».now ≤ length out.old }
    ensures { (result ≡ length head.now + length end.now + length «data».now) × (out.new ≡ (head.now ++ («data».now ++ end.now)) ++ drop (length head.now + length end.now + length «data».now) out.old) }
{
    let at = head.len();
    let behind = at + data.len();
    out[..at].copy_from_slice(head);
    tail::few(&mut out[behind..], end);
    tail::fill(&mut out[at..], data);
    behind + end.len()
}

// What a message of these parts leaves of a buffer with so much room, where it goes into it.
fn rest(head: usize, n: usize, end: usize, room: usize) -> Option<usize>
    ensures { is_some result ≡ leb (head + end + n) room }
{
    room.checked_sub(head)?.checked_sub(n)?.checked_sub(end)
}

// A response as the controller takes it, nibble by nibble.

#![tactic(auto)]

ghost use Rattle.std.specs.Prelude.{◌≡◌, ◌-◌, min};
ghost use Rattle.message.specs.Format.{response_format, start};
ghost use Rattle.answer.specs.Answer.{partial, nothing_taken, length_taken, body_taken, byte_taken, body_buffer, byte_buffer, taken_with, buffer_with, is_over, status_of, count_of};

// A response that is being taken: its data length so far, the byte that is next, and whether that byte's low nibble is there.
#[derive(Clone, Copy, Debug, PartialEq, Eq)]
pub struct Partial {
    pub length: u16,
    pub place: u32,
    pub half: bool,
    pub low: u8,
}

#[derive(Clone, Copy, Debug, PartialEq, Eq)]
pub enum Response {
    Taking(Partial),
    // Its status, and how many bytes of data it had.
    Complete(u8, u16),
    // It announced more data than the buffer length field.
    TooLarge,
}

impl Response {
    // A response of which nothing is there yet.
    pub fn new() -> Response
        ensures { result ≡ nothing_taken }
    {
        Response::Taking(whole_bytes(0, 0))
    }

    // With one nibble more. A data byte that is whole goes to its place of the lent buffer, if it is to be stored.
    pub fn with(self, nibble: u8, limit: u16, stores: bool, buffer: &mut [u8]) -> Response
        ensures { (result ≡ taken_with self nibble limit) × (buffer.new ≡ buffer_with self nibble stores buffer.old) }
    {
        match self {
            Response::Taking(p) => taking(p, nibble, limit, stores, buffer),
            _ => self,
        }
    }

    // Whether no more of it is to be taken.
    pub fn is_over(self) -> bool
        ensures { result ≡ is_over self }
    {
        matches!(self, Response::Complete(_, _) | Response::TooLarge)
    }

    // The status that ends its operation: without a complete response FF.
    pub fn status(self) -> u8
        ensures { result ≡ status_of self }
    {
        let Response::Complete(status, _) = self else {
            return 0xFF;
        };
        status
    }

    // How many whole data bytes were taken.
    pub fn count(self) -> u16
        ensures { result ≡ count_of self }
    {
        match self {
            Response::Taking(p) => whole_data(p.place, p.length),
            Response::Complete(_, count) => count,
            Response::TooLarge => 0,
        }
    }
}

// A response whose next byte is not begun.
fn whole_bytes(length: u16, place: u32) -> Partial
    ensures { result ≡ partial length place }
{
    Partial {
        length,
        place,
        half: false,
        low: 0,
    }
}

fn taking(p: Partial, nibble: u8, limit: u16, stores: bool, buffer: &mut [u8]) -> Response
    ensures { (result ≡ taken_with (Response.Taking p) nibble limit) × (buffer.new ≡ buffer_with (Response.Taking p) nibble stores buffer.old) }
{
    if p.half {
        return take_byte(p, field::byte_of(p.low, nibble), limit, stores, buffer);
    }
    Response::Taking(Partial {
        half: true,
        low: nibble,
        ..p
    })
}

fn take_byte(p: Partial, b: u8, limit: u16, stores: bool, buffer: &mut [u8]) -> Response
    ensures { (result ≡ byte_taken p b limit) × (buffer.new ≡ byte_buffer p b stores buffer.old) }
{
    if p.place < 2 {
        return take_length(p, b, limit);
    }
    put(p, b, stores, buffer);
    take_body(p, b)
}

// A byte of the data length.
fn take_length(p: Partial, b: u8, limit: u16) -> Response
    ensures { result ≡ length_taken p b limit }
{
    let length = field::with_byte(p.length, p.place as usize, b);
    if p.place == 0 {
        return Response::Taking(whole_bytes(length, 1));
    }
    if limit < length {
        return Response::TooLarge;
    }
    Response::Taking(whole_bytes(length, 2))
}

// A byte of the data, or the status behind it.
fn take_body(p: Partial, b: u8) -> Response
    ensures { result ≡ body_taken p b }
{
    let place = p.place;
    if data_place(place) < p.length as u32 {
        return Response::Taking(whole_bytes(p.length, place + 1));
    }
    Response::Complete(b, p.length)
}

// Stores a byte of the data at its place of the lent buffer. By an index: after `get_mut` nothing is known of the bytes.
fn put(p: Partial, b: u8, stores: bool, buffer: &mut [u8])
    ensures { buffer.new ≡ body_buffer p b stores buffer.old }
{
    let i = data_place(p.place) as usize;
    if stores && i < p.length as usize && i < buffer.len() {
        buffer[i] = b;
    }
}

// Which byte of the data stands at a place of a response; 0 for the bytes before the data.
fn data_place(place: u32) -> u32
    ensures { result ≡ place - start response_format }
{
    place.saturating_sub(2)
}

fn whole_data(place: u32, length: u16) -> u16
    ensures { result ≡ min (place - start response_format) length }
{
    data_place(place).min(length as u32) as u16
}

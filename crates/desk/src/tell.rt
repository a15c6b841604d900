// What is said of a run.
use crate::Desk;
use page::Page;
use statement::{Form, Refusal, Values};

// Of received bytes and of those that an expectation has found, the first are said.
pub(crate) const SHOWN: usize = 64;

// The last refusal's number and its meaning for the call of a form.
pub fn refusal(desk: &Desk, form: Form) {
    if let Some(number) = desk.refusal {
        desk.note(format_args!("refusal {number}: {}", meaning(form, number)));
    }
}

// What a refusal means.
fn meaning(form: Form, number: Refusal) -> &'static str {
    match (form, number) {
        (Form::Controller, _) => "the time-out is 8 to 65,535\n",
        (Form::Unit, _) => "the own code is 1 to 255, the retry count 4 to 65,535\n",
        (Form::Raise, _) => "not enabled\n",
        (Form::Run | Form::Step, 5) => "a nibble level over 15\n",
        (Form::Run | Form::Step, 10) => "data of another length than submitted\n",
        (Form::Run | Form::Step, _) => "the lent buffer is too short\n",
        (_, 1) => "a command is submitted, or a frame or its rest runs\n",
        (_, 2) => "data over 65,535 bytes\n",
        (_, 3) => "0A is not submitted; polls are the ring's\n",
        (_, 4) => "the ring is full\n",
        (_, 5) => "",
        (_, 6) => "the input queue is full\n",
        (_, 7) => "not open for input or update, or a screen\n",
        (_, 8) => "the code is not in the ring or not marked\n",
        _ => "the response buffer is under the buffer length\n",
    }
}

// What a look at a screen has found: its cursor, and what is so or not so of it.
pub fn screen(desk: &Desk, looks: &Values) {
    let so = |place: usize| looks.number(place) == Some(1);
    desk.note(format_args!(
        "cursor {} {}, {} mode, wrap {}{}{}{}{}\n",
        looks.number_or(0, 0),
        looks.number_or(1, 0),
        if so(2) { "scroll" } else { "page" },
        if so(3) { "on" } else { "off" },
        if so(4) { ", top line protected" } else { "" },
        if so(5) { ", bottom line protected" } else { "" },
        if so(6) {
            ", its address is pending"
        } else {
            ""
        },
        if so(7) { ", inside a sequence" } else { "" },
    ));
}

// Received bytes, the first of them.
pub fn received(desk: &Desk, s: &[u8]) {
    desk.say("          data");
    page::bytes(desk.out, word::front(s, SHOWN));
    desk.say(if SHOWN < s.len() { " ..\n" } else { "\n" });
}

// The bytes that the unit of the statement gives its host.
pub fn given(desk: &Desk, taken: &[u8]) {
    let code = desk.statement.values.number_or(0, 0);
    desk.note(format_args!("{code} gives its host"));
    if taken.is_empty() {
        desk.say(" nothing");
    }
    page::bytes(desk.out, taken);
    desk.say("\n");
}

// The ring in order, the front first, marked entries with a star.
pub fn ring(desk: &Desk, found: &[u8]) {
    desk.note(format_args!("ring of {}:", found.len() / 2));
    let mut page = Page::new();
    entries(&mut page, found);
    page.write(desk.out);
    desk.say("\n");
}

// Entries of a ring, two bytes each: a code and a mark.
pub(crate) fn entries(page: &mut Page, found: &[u8]) {
    for entry in found.chunks(2) {
        if let [code, mark] = entry {
            page.tell(format_args!(" {code}"));
            if *mark == 1 {
                page.letter(b'*');
            }
        }
    }
}

// How many entries of the ring stand before that of a code; 16 where it has none.
pub fn ahead(ring: &[u8; 32], code: u8) -> usize {
    ring.chunks(2)
        .position(|entry| entry.first() == Some(&code))
        .unwrap_or(16)
}

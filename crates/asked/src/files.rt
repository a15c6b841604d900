// Scripts that are read, and dumps and screens that are written.
use page::{Out, Page, STDERR};
use std::fs::File;
use std::io::{Error, ErrorKind, Input, Read};
use std::os::fd::{AsRawFd, IntoRawFd};
use std::rt::{Env, Files};

// A file cannot be had, which was said.
#[derive(Clone, Copy, Debug, PartialEq, Eq)]
pub struct Unavailable;

// What a file is written with.
#[derive(Clone, Copy, Debug, PartialEq, Eq)]
pub enum Content {
    Dump,
    Screens,
}

const STDIN: i32 = 0;

// Reads a script and ends its last line.
pub fn load<'a, R: Files<File = File> + Input>(
    rt: &R,
    name: &[u8],
    text: &'a mut [u8],
) -> Result<&'a [u8], Unavailable> {
    let n = if name == b"-".as_slice() {
        whole(STDIN, rt.reader(), name, text)?
    } else {
        match open_read(rt, name) {
            Ok(file) => whole(file.as_raw_fd(), file, name, text)?,
            Err(error) => return Err(fail(name, error)),
        }
    };
    Ok(word::front(text, n))
}

// The script that a descriptor has, whose reader tells why it cannot be read to its end; how many letters.
fn whole<R: Read + Drop>(
    file: i32,
    mut reader: R,
    name: &[u8],
    text: &mut [u8],
) -> Result<usize, Unavailable> {
    let n = io::read_full(file, text);
    let mut more = [0u8; 1];
    if let Err(error) = reader.read(&mut more) {
        return Err(fail(name, error));
    }
    let Some(end) = text.get_mut(n) else {
        page::show(STDERR, name);
        page::say(
            STDERR,
            b": the script is too large: at most 1,048,576 bytes\n",
        );
        return Err(Unavailable);
    };
    *end = b'\n';
    Ok(n.saturating_add(1))
}

// Where that goes which is written to the file that a word names; nowhere, where there is no such word. What holds anything else is not
// overwritten.
pub fn open<R: Env + Files<File = File>>(
    rt: &R,
    word: Option<usize>,
    content: Content,
) -> Result<Out, Unavailable> {
    let Some(i) = word else {
        return Ok(None);
    };
    let name = crate::arg(rt, i);
    if is_other(rt, name.letters(), content) {
        page::show(STDERR, name.letters());
        page::say(
            STDERR,
            b": this file holds something else, and is left as it is\n",
        );
        return Err(Unavailable);
    }
    match open_overwrite(rt, name.letters()) {
        Ok(file) => {
            let out = file.into_raw_fd();
            // Where the caller had closed standard input, this is its descriptor, and nothing is written to it.
            Ok(if out == STDIN { None } else { Some(out) })
        }
        Err(error) => Err(fail(name.letters(), error)),
    }
}

// Whether there is a file of this name that holds something else.
fn is_other<R: Files<File = File>>(rt: &R, name: &[u8], content: Content) -> bool {
    let Ok(old) = open_read(rt, name) else {
        return false;
    };
    let mut front = [0u8; 256];
    let n = io::read_full(old.as_raw_fd(), &mut front);
    let front = word::front(&front, n);
    match content {
        Content::Dump => !picture::dump::is_dump(front),
        Content::Screens => !picture::screen::is_screen(front),
    }
}

fn open_read<R: Files<File = File>>(rt: &R, name: &[u8]) -> Result<File, Error> {
    File::open(rt, path(name)?)
}

fn open_overwrite<R: Files<File = File>>(rt: &R, name: &[u8]) -> Result<File, Error> {
    File::create(rt, path(name)?)
}

// A name as the system's files have it here.
fn path(name: &[u8]) -> Result<&str, Error> {
    str::from_utf8(name).map_err(|_| Error::new(
        ErrorKind::InvalidFilename,
        "Name is not text in UTF-8",
    ))
}

// Says why a file cannot be had, in the system's words, without the number in parentheses that stands behind them.
fn fail(name: &[u8], error: Error) -> Unavailable {
    let mut said = Page::new();
    let is_numbered = error.raw_os_error().is_some();
    said.tell(error);
    let words = said.letters();
    let number = words.iter().rposition(|b| is_numbered & (*b == b'('));
    let mut page = Page::new();
    page.words(name);
    page.words(b": ");
    page.words(match number {
        Some(n) => word::front(words, n.saturating_sub(1)),
        None => words,
    });
    page.words(b"\n");
    page.write(STDERR);
    Unavailable
}

// What the words of the command line ask for, and the files that they name.

#![tactic(auto)]

pub mod files;

ghost use Rattle.std.specs.Prelude.{◌≤◌, length};

use page::STDERR;
use std::env::FillError;
use std::fmt;
use std::rt::Env;

// What the words behind `run` ask for: how many scripts, whether frames are pictured, and which words name the files of the dump and of the
// screens.
#[derive(Clone, Copy, Debug, PartialEq, Eq)]
pub struct Wanted {
    pub scripts: usize,
    pub is_pictured: bool,
    pub dump: Option<usize>,
    pub screen: Option<usize>,
}

// What is wrong with the words.
#[derive(Clone, Copy, Debug, PartialEq, Eq)]
pub enum Wrong {
    NoCommand,
    NoOption,
    OptionForFile,
    NoFile,
    NoScript,
    ManyScripts,
}

// A word of the command line, which has no letters where it is missing or too long for the name of a file.
#[derive(Drop)]
pub struct Name {
    letters: [u8; 4096],
    n: usize,
    ghost within: { n ≤ 4096 },
}

// The words behind `run`; none where something is wrong with them, which is said.
pub fn words(rt: &impl Env) -> Option<Wanted> {
    let mut wanted = Wanted {
        scripts: 0,
        is_pictured: false,
        dump: None,
        screen: None,
    };
    let mut is_wrong = false;
    let n = count(rt);
    for i in 2..n {
        let name = arg(rt, i);
        if let Err(wrong) = wanted.add(i, name.letters()) {
            wrong.say(name.letters());
            is_wrong = true;
        }
    }
    match wanted.checked(n) {
        Ok(()) if !is_wrong => Some(wanted),
        Err(wrong) if !is_wrong | (wrong == Wrong::NoFile) => {
            wrong.say(b"");
            None
        }
        _ => None,
    }
}

// How many words the command line has, the program's own name among them.
pub fn count(rt: &impl Env) -> usize {
    let mut front = [0u8; 1];
    for i in 0..usize::MAX {
        if matches!(rt.arg(i, &mut front), Err(FillError::NotPresent)) {
            return i;
        }
    }
    usize::MAX
}

// A word of the command line.
pub fn arg(rt: &impl Env, i: usize) -> Name {
    let mut letters = [0; 4096];
    let n = rt.arg(i, &mut letters).unwrap_or(0);
    Name { letters, n }
}

pub fn is_option(word: &[u8]) -> bool {
    matches!(word, [b'-', _, ..])
}

impl Name {
    pub fn letters(&self) -> &[u8]
        ensures { length result.now ≤ 4096 }
    {
        &self.letters[..self.n]
    }
}

impl Wanted {
    // Whether the word at a place, with these letters, names a script.
    pub fn is_script(&self, i: usize, word: &[u8]) -> bool {
        !self.is_file(i) & !is_option(word)
    }

    // Whether the word at a place names the file of the dump or of the screens.
    fn is_file(&self, i: usize) -> bool {
        (self.dump == Some(i)) | (self.screen == Some(i))
    }

    fn add(&mut self, i: usize, word: &[u8]) -> Result<(), Wrong> {
        let next = Some(i.saturating_add(1));
        match word {
            _ if self.is_file(i) & is_option(word) => return Err(Wrong::OptionForFile),
            _ if self.is_file(i) => {}
            b"--lines" => self.is_pictured = true,
            b"--vcd" => self.dump = next,
            b"--screen" => self.screen = next,
            _ if is_option(word) => return Err(Wrong::NoOption),
            _ => self.scripts = self.scripts.saturating_add(1),
        }
        Ok(())
    }

    // What only all of n words together show to be wrong.
    fn checked(&self, n: usize) -> Result<(), Wrong> {
        if self.dump.max(self.screen).is_some_and(|i| n <= i) {
            return Err(Wrong::NoFile);
        }
        if self.scripts == 0 {
            return Err(Wrong::NoScript);
        }
        if (1 < self.scripts) & (self.dump.is_some() | self.screen.is_some()) {
            return Err(Wrong::ManyScripts);
        }
        Ok(())
    }
}

impl Wrong {
    // Says what is wrong, and with which word.
    pub fn say(self, word: &[u8]) {
        page::tell(STDERR, format_args!("hexbus: {self}"));
        page::show(STDERR, word);
        page::say(STDERR, b"\n");
    }
}

impl fmt::Display for Wrong {
    fn fmt<W: fmt::Write>(&self, f: &mut fmt::Formatter<W>) -> fmt::Result {
        f.write_str(match self {
            Wrong::NoCommand => "no such command, ./hexbus help says what there is: ",
            Wrong::NoOption => "no such option: ",
            Wrong::OptionForFile => "an option stands where a file should: ",
            Wrong::NoFile => "the last option names no file",
            Wrong::NoScript => "no script is named",
            Wrong::ManyScripts => "--vcd and --screen are for one script",
        })
    }
}

// Reading a slice that must hold exactly one message, of any format: the check, and the data field as a part of the slice.
// A format is two numbers here, `at` and `behind`. A struct of them is no plainer: both functions only look at them, and callers have
// them as literals.

#![tactic(auto)]

ghost use Rattle.std.specs.Prelude.{◌≡◌};
ghost use Rattle.message.specs.Reading.{checking, data_by};
ghost use Rattle.reader.specs.Numbers.{number, found};

// Why a slice does not hold exactly one message.
#[derive(Clone, Copy, Debug, PartialEq, Eq)]
pub enum Misread {
    // Refusal 9: too short for a message without data.
    Short,
    // Refusal 10: the length field disagrees with the slice.
    Disagrees,
}

impl From<Misread> for u32 {
    ghost from_gives = { λ e n. n ≡ number e };

    fn from(e: Misread) -> u32 {
        match e {
            Misread::Short => 9,
            Misread::Disagrees => 10,
        }
    }
}

// Checks a slice that must hold exactly one message, with its length field at a place and so many bytes behind its data: how many bytes
// of data it has.
pub fn check(s: &[u8], at: u8, behind: u8) -> Result<usize, Misread>
    ensures { found result ≡ checking at behind s.now }
{
    let i = usize::from(at);
    let fields = i + 2 + usize::from(behind);
    if s.len() < fields {
        return Err(Misread::Short);
    }
    let n = usize::from(field::value_of(s[i], s[i + 1]));
    if s.len() == fields + n {
        return Ok(n);
    }
    Err(Misread::Disagrees)
}

// The data field of the message that a slice holds, as that part of the slice; nothing where `check` refuses.
pub fn data_of(s: &[u8], at: u8, behind: u8) -> &[u8]
    ensures { result.now ≡ data_by (checking at behind s.now) at s.now }
{
    match check(s, at, behind) {
        Ok(n) => {
            let from = usize::from(at) + 2;
            &s[from..from + n]
        }
        Err(_) => &s[..0],
    }
}

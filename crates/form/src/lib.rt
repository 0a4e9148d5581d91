// What every file is made of: 16-bit numbers, references and formulas; and how a call is refused.

#![tactic(auto)]

ghost use Rattle.std.specs.Prelude.{◌≡◌, ◌+◌, ◌<◌, ◌≤◌, length, Some};
ghost use Rattle.form.specs.Numbers.{word_at, put_word};
ghost use Rattle.form.specs.Refusals.{number_of, place_of, words_of};
ghost use Rattle.form.specs.References.{variable};

use std::error::Error;
use std::fmt;

// The kind of and. Kinds stay numbers: `Records::make` promises its outcome for every 16-bit kind, and the theorems of `formula` are over numbers.
pub const AND: u16 = 1;

// The kind of or.
pub const OR: u16 = 2;

// The kind of not.
pub const NOT: u16 = 3;

// A formula: its kind is 1 for and, 2 for or, 3 for not, and its arguments are references. A given formula and a record have this form.
#[derive(Debug, Clone, Copy, PartialEq, Eq)]
pub struct Record {
    pub kind: u16,
    pub first: u16,
    pub second: u16,
}

// A reference: a constant, a variable, or a given formula or record. It is the number that files and results have; there is no heap for what it names.
#[derive(Debug, Clone, Copy, PartialEq, Eq, PartialOrd, Ord)]
pub struct Reference {
    pub number: u16,
}

impl Reference {
    // Constant false.
    pub const FALSE: Reference = Reference { number: 0 };

    // Constant true.
    pub const TRUE: Reference = Reference { number: 1 };

    // Variable i; with p variables, given formula or record k is at p + k.
    pub fn of(index: usize) -> Reference
        requires { variable index < 65536 }
        ensures { result.number ≡ variable index }
    {
        // A cast that is proved to lose nothing: `try_from` would answer an error that never comes.
        Reference {
            number: (2 + index) as u16,
        }
    }
}

// What is wrong, by the refusals' numbers, with its place where that is not always 0. Number 8 is unused.
#[derive(Debug, Clone, Copy, PartialEq, Eq)]
pub enum Fault {
    Cut(usize),
    Count(usize),
    Coil(usize),
    Kind(usize),
    Reference(usize),
    End(usize),
    Trailing(usize),
    ResultRoom,
    SettingLength,
    SettingByte(usize),
    AnswerRoom,
}

impl Fault {
    // Its number, which the doors to C pass on.
    pub fn number(self) -> u64
        ensures { result ≡ number_of self }
    {
        match self {
            Fault::Cut(_) => 1,
            Fault::Count(_) => 2,
            Fault::Coil(_) => 3,
            Fault::Kind(_) => 4,
            Fault::Reference(_) => 5,
            Fault::End(_) => 6,
            Fault::Trailing(_) => 7,
            Fault::ResultRoom => 9,
            Fault::SettingLength => 10,
            Fault::SettingByte(_) => 11,
            Fault::AnswerRoom => 12,
        }
    }

    // Its place; 0 where it has none, as the doors to C and the definition `place_of` have it.
    pub fn place(self) -> usize
        ensures { result ≡ place_of self }
    {
        match self {
            Fault::Cut(at)
            | Fault::Count(at)
            | Fault::Coil(at)
            | Fault::Kind(at)
            | Fault::Reference(at)
            | Fault::End(at)
            | Fault::Trailing(at)
            | Fault::SettingByte(at) => at,
            Fault::ResultRoom | Fault::SettingLength | Fault::AnswerRoom => 0,
        }
    }
}

// A refusal in words, by its number and its place. The line of a listing is the outline's, in other words.
impl fmt::Display for Fault {
    ghost output = { λ f. Some (words_of f) };

    fn fmt<W: fmt::Write>(&self, f: &mut fmt::Formatter<W>) -> fmt::Result {
        let number = self.number();
        let place = self.place();
        write!(f, "refusal {number} at {place}")
    }
}

// A call that is refused fails with it.
impl Error for Fault {}

// The number at a place.
#[tactic(auto, unfolding(crate::specs::Numbers::word_at))]
pub fn word(s: &[u8], at: usize) -> u16
    requires { at + 2 ≤ length s.now }
    ensures { result ≡ word_at s.now at }
{
    u16::from_le_bytes([s[at], s[at + 1]])
}

// Writes a number at a place.
#[tactic(auto, unfolding(crate::specs::Numbers::put_word))]
pub fn put_word(s: &mut [u8], at: usize, v: u16)
    requires { at + 2 ≤ length s.old }
    ensures { s.new ≡ put_word s.old at v }
{
    let [low, high] = v.to_le_bytes();
    s[at] = low;
    s[at + 1] = high;
}

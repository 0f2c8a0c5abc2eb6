ghost use Rattle.std.specs.Prelude.{◌≡◌, ◌+◌, ◌*◌, ◌^◌, ◌<◌, drop, IfOk, IfErr, Some};
ghost use Rattle.std.specs.Fmt.{WritesOnOk};
ghost use Rattle.std.specs.Int.{w64, to_be_bytes};
ghost use Rattle.std.specs.Int.Digits.{digits_of};
ghost use Rattle.service.specs.Answers.{invalid_number};
ghost use Rattle.keys.specs.Names.{names, letters_or_digits, is_name, new_name, text_of, text_of_number, SameWithoutCase};

use service::{Invalid, Key};
use std::fmt;

/// A name of one to eight ASCII letters or digits, under which a worker is known.
///
/// It is a key: `same` compares without case. It is printed as it was spelt.
#[derive(Clone, Copy)]
pub struct Name {
    // the bytes of the text, packed in a number: the first in the highest place
    letters: u64,
    // the same in lower case, so that two names are compared as one number each
    folded: u64,
}

// The most letters of a name.
const LONGEST: usize = 8;

// Whether each byte is an ASCII letter or digit.
fn letters_or_digits(text: &[u8]) -> bool
    ensures { result ≡ letters_or_digits text.now }
{
    text.iter().all(|byte| byte.is_ascii_alphanumeric())
}

// Whether the text is a name: one to eight letters or digits.
fn is_name(text: &[u8]) -> bool
    ensures { result ≡ is_name text.now }
{
    (1..=LONGEST).contains(&text.len()) && letters_or_digits(text)
}

// One byte more, below those that are packed.
fn with_byte(packed: u64, byte: u8) -> u64
    requires { packed < 2 ^ 56 }
    ensures { result ≡ packed * 256 + byte }
{
    packed * 256 + u64::from(byte)
}

#[tactic(auto, using(crate::proofs::Names::byte_by_byte))]
impl Name {
    /// The name of this spelling; `Invalid::Name` where the text is no name.
    pub fn new(text: &[u8]) -> Result<Self, Invalid>
        ensures answer { result ≡ new_name text.now }
        ensures number { IfErr result (λ e. invalid_number e ≡ 13) }
        ensures text { IfOk result (λ n. text_of n ≡ text.now) }
        ensures same { IfOk result (λ n. SameWithoutCase text.now n) }
    {
        if !is_name(text) {
            return Err(Invalid::Name);
        }
        let mut letters = 0;
        let mut folded = 0;
        for byte in text {
            letters = with_byte(letters, *byte);
            folded = with_byte(folded, byte.to_ascii_lowercase());
        }
        Ok(Name { letters, folded })
    }
}

impl Key for Name {
    ghost sameness = { names };

    fn same(&self, other: &Name) -> bool {
        self.folded == other.folded
    }
}

// How many of a number's eight bytes are 0 before its first digit in base 256.
#[tactic(auto, using(crate::proofs::Names::digits_left))]
fn leading_zero_bytes(letters: u64) -> usize
    ensures { drop result (to_be_bytes w64 letters) ≡ digits_of 256 letters }
{
    letters.leading_zeros() as usize / 8
}

// Writes the bytes that are packed in a number, from the first that is not 0 on.
fn write_letters<W: fmt::Write>(letters: u64, f: &mut fmt::Formatter<W>) -> fmt::Result
    ensures { WritesOnOk W.Write.write_str_gives f.old result (text_of_number letters) f.new }
{
    let zeros = leading_zero_bytes(letters);
    for byte in letters.to_be_bytes().into_iter().skip(zeros) {
        f.write_char(char::from(byte))?;
    }
    Ok(())
}

impl fmt::Display for Name {
    ghost output = { λ name. Some (text_of name) };

    fn fmt<W: fmt::Write>(&self, f: &mut fmt::Formatter<W>) -> fmt::Result {
        write_letters(self.letters, f)
    }
}

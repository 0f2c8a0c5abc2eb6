// The words of a line, and the values that they say.
use crate::run::Measure;
use anyhow::{Context, anyhow};
use keys::Name;
use load::{Decay, Halving, Settings, Squaring};
use std::alloc::Global;
use std::error::Error;
use std::str::{FromStr, SplitWhitespace};
use workers::{Answer, Patterned};

/// The words of a line, taken one after the other.
///
/// Each is read as it is taken, so that of two faults in a line the first one is told. Words that nobody takes are
/// passed over.
#[derive(Drop)]
pub struct Words<'a>(SplitWhitespace<'a>);

impl<'a> Words<'a> {
    /// All words of a line.
    pub fn of(line: &'a str) -> Self {
        Words(line.split_whitespace())
    }

    /// The next word.
    pub fn word(&mut self) -> anyhow::Result<&'a str> {
        self.0.next().context("a line is too short")
    }

    /// The number that the next word is.
    pub fn number<N: FromStr<Err: Error>>(&mut self) -> anyhow::Result<N> {
        Ok(self.word()?.parse()?)
    }

    /// The name that the next word is.
    pub fn name(&mut self) -> anyhow::Result<Name> {
        Name::new(self.word()?.as_bytes()).ok().context("no name")
    }

    /// A worker with a pattern of the letters r, p and f; the word `none`, or no word, says an empty pattern.
    pub fn worker(&mut self, heap: Global) -> anyhow::Result<Patterned> {
        let letters = match self.0.next() {
            None | Some("none") => "",
            Some(letters) => letters,
        };
        let pattern: Vec<Answer> = letters.bytes().map(answer).collect(heap)?;
        Patterned::new(pattern.as_slice())
            .ok()
            .context("a pattern is too long")
    }

    /// The load measure that the next words say.
    pub fn measure(&mut self) -> anyhow::Result<Measure> {
        match self.word()? {
            "count" => Ok(Measure::Count),
            "halving" => Ok(Measure::Halving(self.settings(Halving)?)),
            "squaring" => Ok(Measure::Squaring(self.settings(Squaring)?)),
            _ => Err(anyhow!("no load measure")),
        }
    }

    // Settings by two numbers of nanoseconds.
    fn settings<D: Decay>(&mut self, decay: D) -> anyhow::Result<Settings<D>> {
        Ok(Settings {
            decay,
            default_rtt: self.number()?,
            decay_period: self.number()?,
        })
    }
}

// The answer of a letter.
fn answer(letter: u8) -> Answer {
    match letter {
        b'r' => Answer::Ready,
        b'p' => Answer::Pending,
        _ => Answer::Failed,
    }
}

// Bytes, lists of numbers and answers in words.
ghost use Rattle.std.specs.Prelude.{◌≡◌, ◌↔◌, IsTrue};
ghost use Rattle.dumps.specs.Words.{answer_in};

use crate::failure::Failure;
use image::check::fnv1a;
use refusal::Fault;
use std::fmt;

// A list of numbers, to be printed in one line, as slices do not print.
#[derive(Clone, Copy, Debug)]
pub struct Listed<'a>(pub &'a [usize]);

impl fmt::Display for Listed<'_> {
    // Writes the numbers with a space between two.
    fn fmt<W: fmt::Write>(&self, f: &mut fmt::Formatter<W>) -> fmt::Result {
        for (i, number) in self.0.iter().enumerate() {
            if i > 0 {
                write!(f, " ")?;
            }
            write!(f, "{number}")?;
        }
        Ok(())
    }
}

// Some bytes, to be printed by how many they are and what they sum up to.
#[derive(Clone, Copy, Debug)]
pub struct Summed<'a>(pub &'a [u8]);

impl fmt::Display for Summed<'_> {
    // Writes the number of the bytes and their check sum.
    fn fmt<W: fmt::Write>(&self, f: &mut fmt::Formatter<W>) -> fmt::Result {
        let len = self.0.len();
        let sum = fnv1a(self.0);
        write!(f, "{len} bytes, check sum {sum:#018x}")
    }
}

// What comes back of a dump.
#[derive(Clone, Copy, Debug)]
pub struct Returned<'a> {
    pub dump: &'a [u8],
    pub file: &'a [u8],
}

impl Returned<'_> {
    // Whether the dump itself comes back.
    pub fn is_dump(&self) -> bool
        ensures { IsTrue result ↔ (self.now.file.now ≡ self.now.dump.now) }
    {
        self.file == self.dump
    }
}

impl fmt::Display for Returned<'_> {
    // Writes what the bytes sum up to, and whether they are the dump.
    fn fmt<W: fmt::Write>(&self, f: &mut fmt::Formatter<W>) -> fmt::Result {
        let file = Summed(self.file);
        let verdict = if self.is_dump() {
            "the same as the dump, byte by byte"
        } else {
            "not the dump"
        };
        write!(f, "what comes back: {file}, {verdict}")
    }
}

// How a request is answered: it is granted, or refused.
#[derive(Clone, Copy, Debug)]
pub struct Answer {
    pub outcome: Result<(), Fault>,
}

impl Answer {
    // The answer that a result tells. What it gives is let go, and a failure that is no refusal stays one.
    pub fn of<T: Drop>(outcome: Result<T, Failure>) -> Result<Answer, Failure>
        ensures { result ≡ answer_in outcome }
    {
        match outcome {
            Ok(_) => Ok(Answer { outcome: Ok(()) }),
            Err(Failure::TurnedDown(fault)) => Ok(Answer {
                outcome: Err(fault),
            }),
            Err(other) => Err(other),
        }
    }
}

impl fmt::Display for Answer {
    // Writes the answer, and the refusal in words.
    fn fmt<W: fmt::Write>(&self, f: &mut fmt::Formatter<W>) -> fmt::Result {
        match self.outcome {
            Ok(()) => write!(f, "granted"),
            Err(fault) => write!(f, "refused: {fault}"),
        }
    }
}

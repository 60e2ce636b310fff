// Words, and words that may be blank.
ghost use Rattle.std.specs.Prelude.{◌≡◌, Some, decimal};
ghost use Rattle.std.specs.Result.{result_ok};
ghost use Rattle.values.specs.Words.{words, blank_words};
ghost use Rattle.values.specs.Written.{word_of, blank_word_of, written};

use crate::kind::Kind;
use source::node::{Condition, Operation};
use std::fmt;
use std::str::FromStr;
use text::number::read_number;

// 32 bits, unsigned.
#[derive(Clone, Copy, PartialEq, Eq, Debug)]
pub struct Word(pub u32);

impl Kind for Word {
    ghost arithmetic = { words };

    fn constant(k: u32) -> Word {
        Word(k)
    }

    fn operate(operation: Operation, a: Word, b: Word) -> Word {
        match operation {
            Operation::Add => Word(a.0.wrapping_add(b.0)),
            Operation::Sub => Word(a.0.wrapping_sub(b.0)),
            Operation::Mul => Word(a.0.wrapping_mul(b.0)),
            Operation::Min => Word(a.0.min(b.0)),
            Operation::Max => Word(a.0.max(b.0)),
        }
    }

    fn test(condition: Condition, a: Word, b: Word) -> bool {
        match condition {
            Condition::Eq => a.0 == b.0,
            Condition::Lt => a.0 < b.0,
            Condition::Le => a.0 <= b.0,
        }
    }
}

// A word, or none, which is a blank: an operation with one gives blank; a test with one says no.
#[derive(Clone, Copy, PartialEq, Eq, Debug)]
pub struct BlankWord(pub Option<Word>);

impl From<Word> for BlankWord {
    ghost from_gives = { λ w b. b ≡ record { 0 = Some w } };

    fn from(word: Word) -> BlankWord {
        BlankWord(Some(word))
    }
}

impl Kind for BlankWord {
    ghost arithmetic = { blank_words };

    fn constant(k: u32) -> BlankWord {
        Word::constant(k).into()
    }

    fn operate(operation: Operation, a: BlankWord, b: BlankWord) -> BlankWord {
        match (a.0, b.0) {
            (Some(x), Some(y)) => Word::operate(operation, x, y).into(),
            _ => BlankWord(None),
        }
    }

    fn test(condition: Condition, a: BlankWord, b: BlankWord) -> bool {
        match (a.0, b.0) {
            (Some(x), Some(y)) => Word::test(condition, x, y),
            _ => false,
        }
    }
}

// A text that writes no value of the kind.
#[derive(Clone, Copy, PartialEq, Eq, Debug)]
pub struct NotAValue;

// A word is written as its number.
impl FromStr for Word {
    type Err = NotAValue;

    ghost from_str_gives = { λ bs r. result_ok r ≡ word_of bs };

    fn from_str(s: &str) -> Result<Word, NotAValue> {
        let n = read_number(s.as_bytes()).ok_or(NotAValue)?;
        let n = u32::try_from(n).map_err(|_| NotAValue)?;
        Ok(Word(n))
    }
}

impl fmt::Display for Word {
    ghost output = { λ w. Some (decimal w.0) };

    fn fmt<W: fmt::Write>(&self, f: &mut fmt::Formatter<W>) -> fmt::Result {
        let n = self.0;
        write!(f, "{n}")
    }
}

// A blank is written `-`.
impl FromStr for BlankWord {
    type Err = NotAValue;

    ghost from_str_gives = { λ bs r. result_ok r ≡ blank_word_of bs };

    fn from_str(s: &str) -> Result<BlankWord, NotAValue> {
        if s == "-" {
            return Ok(BlankWord(None));
        }
        let word: Word = s.parse()?;
        Ok(word.into())
    }
}

impl fmt::Display for BlankWord {
    ghost output = { λ b. Some (written b) };

    fn fmt<W: fmt::Write>(&self, f: &mut fmt::Formatter<W>) -> fmt::Result {
        match self.0 {
            Some(word) => write!(f, "{word}"),
            None => write!(f, "-"),
        }
    }
}

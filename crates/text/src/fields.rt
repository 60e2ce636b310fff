// A field of a line: a word, a number or a location. It borrows the text and keeps its place.
ghost use Rattle.std.specs.Prelude.{◌≡◌, ◌+◌, ◌<◌, ◌≤◌, [], map, length, drop, Some, IsSome, IfSome, IfNone};
ghost use Rattle.std.specs.Option.{option_map};
ghost use Rattle.text.specs.Fields.{word, location_of, shape_of, shape, bytes, start_of, shapes_of, starts, number_between, number_below, word_in, says, after_title, first_word};
ghost use Rattle.text.specs.Parts.{fields_of};
ghost use Rattle.text.specs.Lines.{fields_left};

use crate::lines::{Fields, Line};
use crate::number::read_number;
use crate::words::{Spelled, find_word};
use arrayvec::ArrayVec;

// A register or a slot, as a text names it.
#[derive(Clone, Copy, PartialEq, Eq)]
pub enum Location {
    Register(u64),
    Slot(u64),
}

#[derive(Clone, Copy)]
pub enum Field<'a> {
    Word {
        text: &'a [u8],
        start: usize,
    },
    Number {
        text: &'a [u8],
        start: usize,
        value: u64,
    },
    Location {
        text: &'a [u8],
        start: usize,
        location: Location,
    },
}

// The letter `r` or `s` and then a number.
fn read_location(s: &[u8]) -> Option<Location>
    ensures { result ≡ location_of s.now }
{
    match s {
        [b'r', rest @ ..] => read_number(rest).map(Location::Register),
        [b's', rest @ ..] => read_number(rest).map(Location::Slot),
        _ => None,
    }
}

// What the unused places of a row hold.
impl<'a> Default for Field<'a> {
    ghost is_default = { λ f. (shape f ≡ word []) × (bytes f ≡ []) × (start_of f ≡ 0) };

    fn default() -> Field<'a> {
        Field::Word {
            text: &[],
            start: 0,
        }
    }
}

impl<'a> Field<'a> {
    // The field with these bytes, which stands at `start` in its text.
    #[inline(always)]
    pub fn of(text: &'a [u8], start: usize) -> Self
        ensures shape { shape result ≡ shape_of text.now }
        ensures bytes { bytes result ≡ text.now }
        ensures place { start_of result ≡ start }
    {
        if let Some(value) = read_number(text) {
            return Field::Number { text, start, value };
        }
        match read_location(text) {
            Some(location) => Field::Location {
                text,
                start,
                location,
            },
            None => Field::Word { text, start },
        }
    }

    // The number that the field says, where it lies from `low` to `high`.
    pub fn number_between(&self, low: u64, high: u64) -> Option<u64>
        ensures value { result ≡ number_between low high (shape self.now) }
        ensures low { IfSome result (λ n. low ≤ n) }
        ensures high { IfSome result (λ n. n ≤ high) }
    {
        match self {
            Field::Number { value, .. } if low <= *value && *value <= high => Some(*value),
            _ => None,
        }
    }

    // The number that the field says, where it lies below `bound`.
    pub fn number_below(&self, bound: u64) -> Option<u64>
        ensures value { result ≡ number_below bound (shape self.now) }
        ensures below { IfSome result (λ n. n < bound) }
    {
        match self {
            Field::Number { value, .. } if *value < bound => Some(*value),
            _ => None,
        }
    }

    // The first of `words` that the field says.
    pub fn word_in<W: Spelled>(&self, words: &[W]) -> Option<W>
        ensures { result ≡ word_in W.spelling words.now (shape self.now) }
    {
        match self {
            Field::Word { text, .. } => find_word(text, words),
            _ => None,
        }
    }

    // Whether the field says this word.
    pub fn says(&self, word: &[u8]) -> bool
        ensures { result ≡ says word.now (shape self.now) }
    {
        match self {
            Field::Word { text, .. } => *text == word,
            _ => false,
        }
    }
}

impl<'a> Fields<'a> {
    // What is left, where there are at most `N` fields.
    fn row<const N: usize>(self) -> Option<ArrayVec<Field<'a>, N>>
        ensures few { IfNone result (N < length (fields_left self.entry)) }
        ensures bytes { IfSome result (λ row. map bytes row.items ≡ fields_left self.entry) }
        ensures shapes { IfSome result (λ row. map shape row.items ≡ map shape_of (fields_left self.entry)) }
        ensures starts { IfSome result (λ row. map start_of row.items ≡ starts self.entry.start (fields_left self.entry)) }
    {
        let mut row = ArrayVec::new();
        row.extend(self).ok()?;
        Some(row)
    }
}

impl<'a> Line<'a> {
    // The fields of the line, where there are at most `N`.
    pub fn fields<const N: usize>(&self) -> Option<ArrayVec<Field<'a>, N>>
        ensures few { IfNone result (N < length (fields_of self.now.bytes.now)) }
        ensures shapes { IfSome result (λ row. map shape row.items ≡ shapes_of self.now.bytes.now) }
        ensures bytes { IfSome result (λ row. map bytes row.items ≡ fields_of self.now.bytes.now) }
        ensures starts { IfSome result (λ row. map start_of row.items ≡ starts self.now.start (fields_of self.now.bytes.now)) }
    {
        Fields::of(self.bytes, self.start).row()
    }

    // The word that the line begins with, and the fields after it, where there are at most `N` fields in all.
    pub fn split_word<W: Spelled, const N: usize>(
        &self,
        words: &[W],
    ) -> Option<(W, ArrayVec<Field<'a>, N>)>
        ensures few { IfNone result (IsSome (first_word W.spelling words.now (shapes_of self.now.bytes.now)) → N < length (fields_of self.now.bytes.now)) }
        ensures word { IfSome result (λ r. first_word W.spelling words.now (shapes_of self.now.bytes.now) ≡ Some r.0) }
        ensures rest { IfSome result (λ r. map shape r.1.items ≡ drop 1 (shapes_of self.now.bytes.now)) }
    {
        let mut fields = Fields::of(self.bytes, self.start);
        let word = fields.next()?.word_in(words)?;
        // only what follows the word is put into a row: taking it out of the front would move all others
        Some((word, fields.row()?))
    }

    // The fields of a heading after its title, of which there are three.
    pub fn after_title(&self, title: &[u8]) -> Option<(Field<'a>, Field<'a>, Field<'a>)>
        ensures { option_map (λ r. (shape r.0, shape r.1, shape r.2)) result ≡ after_title title.now (shapes_of self.now.bytes.now) }
    {
        let fields = self.fields::<4>()?;
        match fields.as_slice() {
            [word, a, b, c] if word.says(title) => Some((*a, *b, *c)),
            _ => None,
        }
    }
}

// What is wrong with a line: its word or its count of fields, or another field.
#[derive(Clone, Copy, PartialEq, Eq)]
pub enum Fault {
    Word,
    Field,
}

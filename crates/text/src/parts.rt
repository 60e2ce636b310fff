// A text is cut into lines, and a line into fields, at a separator byte.
ghost use Rattle.std.specs.Prelude.{◌≡◌, ◌+◌, ◌^◌, ◌<◌, ◌≤◌, ◌∷◌, ◌++◌, length, drop, MatchOption};
ghost use Rattle.text.specs.Parts.{first_part, lines_of, fields_of, sized};
ghost use Rattle.text.specs.Lines.{lines_left, line_count, LineSteps, fields_left, field_count, FieldSteps};

use crate::fields::Field;
use crate::lines::{Fields, Line, Lines};

// What stands before the first `sep`, and what stands after it, if there is one.
fn cut(s: &[u8], sep: u8) -> (&[u8], Option<&[u8]>)
    ensures first { result.0.now ≡ first_part sep s.now }
    ensures rest { MatchOption result.1 (s.now ≡ result.0.now) (λ r. s.now ≡ result.0.now ++ sep ∷ r.now) }
{
    match s.iter().position(|b| *b == sep) {
        Some(n) => (&s[..n], Some(&s[n + 1..])),
        None => (s, None),
    }
}

// The first line of a text without its ending, and what stands after its end, if it has one.
fn cut_line(s: &[u8]) -> (&[u8], Option<&[u8]>)
    ensures first { result.0.now ≡ first_part 10 s.now }
    ensures rest { MatchOption result.1 (s.now ≡ result.0.now) (λ r. s.now ≡ result.0.now ++ 10 ∷ r.now) }
{
    cut(s, b'\n')
}

// The first field of a line, and what stands after its end, if it has one.
fn cut_field(s: &[u8]) -> (&[u8], Option<&[u8]>)
    ensures first { result.0.now ≡ first_part 9 s.now }
    ensures rest { MatchOption result.1 (s.now ≡ result.0.now) (λ r. s.now ≡ result.0.now ++ 9 ∷ r.now) }
{
    cut(s, b'\t')
}

// The line that begins at `at`, without its ending, and where the next one begins.
pub fn next_line(text: &[u8], at: usize) -> (&[u8], usize)
    requires { at < length text.now }
    ensures cut { lines_of (drop at text.now) ≡ result.0.now ∷ lines_of (drop result.1 text.now) }
    ensures long { at + length result.0.now < result.1 }
    ensures within { result.1 ≤ length text.now + 1 }
{
    let (line, _) = cut_line(&text[at..]);
    (line, at + line.len() + 1)
}

// How many lines there are from `at` on.
pub fn count_lines(text: &[u8], at: usize) -> usize
    ensures { result ≡ length (lines_of (drop at text.now)) }
{
    match text.get(at..) {
        Some(rest) => Lines::of(rest).count(),
        None => 0,
    }
}

// Whether a text has 1 to 32,768 bytes, the last of which ends a line.
pub fn is_sized(text: &[u8]) -> bool
    ensures { result ≡ sized text.now }
{
    let n = text.len();
    n >= 1 && n <= 32768 && text[n - 1] == b'\n'
}

impl<'a> Lines<'a> {
    // The lines of a text of any size.
    pub fn of(text: &'a [u8]) -> Self
        ensures lines { lines_left result ≡ lines_of text.now }
        ensures start { result.start ≡ 0 }
        ensures number { result.number ≡ 1 }
    {
        Lines {
            rest: text,
            start: 0,
            number: 1,
        }
    }

    // The number of the first line that is left.
    pub fn number(&self) -> usize
        ensures { result ≡ self.now.number }
    {
        self.number
    }
}

impl<'a> Iterator for Lines<'a> {
    type Item = Line<'a>;

    ghost next_gives = { LineSteps };

    ghost remaining = { line_count };

    fn next(&mut self) -> Option<Line<'a>> {
        if self.rest.is_empty() {
            return None;
        }
        let (bytes, rest) = cut_line(self.rest);
        let line = Line {
            bytes,
            start: self.start,
            number: self.number,
        };
        let rest = rest.unwrap_or(&[]);
        *self = Lines {
            rest,
            start: self.start + (self.rest.len() - rest.len()),
            number: self.number + 1,
        };
        Some(line)
    }
}

impl<'a> Fields<'a> {
    // The fields of a line that stands at `start` in its text.
    pub fn of(line: &'a [u8], start: usize) -> Self
        requires within { start + length line.now < 2 ^ 63 }
        ensures fields { fields_left result ≡ fields_of line.now }
        ensures start { result.start ≡ start }
    {
        Fields {
            rest: Some(line),
            start,
        }
    }
}

impl<'a> Iterator for Fields<'a> {
    type Item = Field<'a>;

    ghost next_gives = { FieldSteps };

    ghost remaining = { field_count };

    // a call for each field would cost as much as reading it
    #[inline(always)]
    fn next(&mut self) -> Option<Field<'a>> {
        let (text, rest) = cut_field(self.rest?);
        let field = Field::of(text, self.start);
        self.start += text.len() + 1;
        self.rest = rest;
        Some(field)
    }
}

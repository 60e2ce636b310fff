// A line of a text, and what is left of a text and of a line.
ghost use Rattle.std.specs.Prelude.{◌+◌, ◌^◌, ◌<◌, ◌≤◌, length};
ghost use Rattle.std.specs.Option.{ForSome};

// A line without its ending.
#[derive(Clone, Copy)]
pub struct Line<'a> {
    pub bytes: &'a [u8],
    // where it begins in its text
    pub start: usize,
    // which line of the text it is, the first being 1
    pub number: usize,
    ghost within: { start + length bytes.now < 2 ^ 63 },
}

// What is left of a text, where it begins, and the number of its first line.
#[derive(Clone, Copy)]
pub struct Lines<'a> {
    pub(crate) rest: &'a [u8],
    pub(crate) start: usize,
    pub(crate) number: usize,
    ghost within: { start + length rest.now < 2 ^ 63 },
    ghost counted: { number ≤ start + 1 },
}

// What is left of a line whose last field is not read, and where it begins.
// It is no `split`: a loop over the library's iterator in a function with a const parameter gets no proof.
#[derive(Clone, Copy)]
pub struct Fields<'a> {
    pub(crate) rest: Option<&'a [u8]>,
    pub(crate) start: usize,
    ghost within: { ForSome rest (λ r. start + length r.now < 2 ^ 63) },
}

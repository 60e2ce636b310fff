// Frames, which hold the values of a run in cells.
ghost use Rattle.std.specs.Prelude.{◌≡◌, ◌+◌, ◌<◌, List, ◌++◌, length, MatchOption, nat_lt, slice_set};
ghost use Rattle.std.specs.List.{slice_get};

use crate::kind::Kind;

// A frame is a list of cells.
pub trait Frame {
    type Value: Kind;

    ghost cells: { Self → List Self.Value };

    // The value of cell i, or none where there is no cell i.
    fn read(&self, i: usize) -> Option<Self::Value>
        ensures { result ≡ slice_get (cells self.now) i };

    // Sets cell i alone and says yes, or says no where there is no cell i.
    fn write(&mut self, i: usize, value: Self::Value) -> bool
        ensures said { result ≡ nat_lt i (length (cells self.old)) }
        ensures cells { cells self.new ≡ slice_set (cells self.old) i value };
}

// The value at place i of a row, or none where the row is shorter.
fn read_row<V: Kind>(row: &[V], i: usize) -> Option<V>
    ensures { result ≡ slice_get row.now i }
{
    row.get(i).copied()
}

// Sets place i of a row, and says whether there is one.
fn write_row<V: Kind>(row: &mut Vec<V>, i: usize, value: V) -> bool
    ensures said { result ≡ nat_lt i (length row.old.items) }
    ensures row { row.new.items ≡ slice_set row.old.items i value }
{
    match row.get_mut(i) {
        Some(cell) => {
            *cell = value;
            true
        }
        None => false,
    }
}

// Where cell i stands in the second of two rows, end to end; none where it is one of the n cells of the first.
fn place_in_second(i: usize, n: usize) -> Option<usize>
    ensures { MatchOption result (i < n) (λ j. i ≡ n + j) }
{
    i.checked_sub(n)
}

// One row.
#[derive(Drop)]
pub struct Flat<V> {
    pub row: Vec<V>,
}

impl<V: Kind> Frame for Flat<V> {
    type Value = V;

    ghost cells = { λ f. f.row.items };

    fn read(&self, i: usize) -> Option<V> {
        read_row(self.row.as_slice(), i)
    }

    fn write(&mut self, i: usize, value: V) -> bool {
        write_row(&mut self.row, i, value)
    }
}

// Two rows, end to end.
#[derive(Drop)]
pub struct Banked<V> {
    pub low: Vec<V>,
    pub high: Vec<V>,
}

impl<V: Kind> Frame for Banked<V> {
    type Value = V;

    ghost cells = { λ f. f.low.items ++ f.high.items };

    fn read(&self, i: usize) -> Option<V> {
        match place_in_second(i, self.low.len()) {
            Some(j) => read_row(self.high.as_slice(), j),
            None => read_row(self.low.as_slice(), i),
        }
    }

    fn write(&mut self, i: usize, value: V) -> bool {
        match place_in_second(i, self.low.len()) {
            Some(j) => write_row(&mut self.high, j, value),
            None => write_row(&mut self.low, i, value),
        }
    }
}

// Either frame.
ghost use Rattle.choices.specs.Chosen.{cells_of};

use values::frame::{Banked, Flat, Frame};
use values::kind::Kind;

#[derive(Drop)]
pub enum AnyFrame<V> {
    Flat(Flat<V>),
    Banked(Banked<V>),
}

impl<V: Kind> Frame for AnyFrame<V> {
    type Value = V;

    ghost cells = { cells_of };

    fn read(&self, i: usize) -> Option<V> {
        match self {
            AnyFrame::Flat(frame) => frame.read(i),
            AnyFrame::Banked(frame) => frame.read(i),
        }
    }

    fn write(&mut self, i: usize, value: V) -> bool {
        match self {
            AnyFrame::Flat(frame) => frame.write(i, value),
            AnyFrame::Banked(frame) => frame.write(i, value),
        }
    }
}

// Hosts, which answer the calls of a run.
ghost use Rattle.std.specs.Prelude.{◌≡◌, ◌≤◌, ℕ, List, [], ◌∷◌, length, drop};
ghost use Rattle.values.specs.Hosts.{Answers, script, seats};

use crate::kind::Kind;
use crate::word::Word;
use std::marker::Model;

// A host of one kind of value: its state, and for each state, function and two values, one answer and one next state.
pub trait Host {
    type Value: Kind;

    ghost State: { Type 0 };

    ghost state: { Self → State };

    ghost means: { Answers State Self.Value };

    // The references that are lent to it: whoever lends a row can tell from them what the row holds afterwards.
    ghost lent: { Self → List ℕ };

    fn ask(&mut self, function: u8, a: Self::Value, b: Self::Value) -> Self::Value
        ensures answer { result ≡ means.answer (state self.old) function a b }
        ensures next { state self.new ≡ means.next (state self.old) function a b }
        ensures lent { lent self.new ≡ lent self.old };
}

// Answers its values in order, then constant 0.
#[derive(Drop)]
pub struct Script<V> {
    values: Vec<V>,
    // the place of the next: the library's `into_iter` keeps one too, but lends no slice of what is left
    at: usize,
}

// A script is the values that are left.
impl<V> Model for Script<V> {
    ghost Value = { List V };

    ghost view = { λ s. drop s.at s.values.items };

    ghost invariant = { λ s. s.at ≤ length s.values.items };
}

impl<V> Script<V> {
    pub fn new(values: Vec<V>) -> Self
        ensures { result ≡ values.items }
    {
        Script { values, at: 0 }
    }

    // The values that are left.
    pub fn left(&self) -> &[V]
        ensures { result.now ≡ self.now }
    {
        &self.values[self.at..]
    }
}

impl<V: Kind> Host for Script<V> {
    type Value = V;

    // the values that are left
    ghost State = { List V };

    ghost state = { λ s. s };

    ghost means = { script V.Kind.arithmetic };

    ghost lent = { λ _. [] };

    fn ask(&mut self, _function: u8, _a: V, _b: V) -> V {
        match self.left().first().copied() {
            Some(value) => {
                self.at += 1;
                value
            }
            None => V::constant(0),
        }
    }
}

// 64 seats in a lent row: function 0 answers seat a modulo 64, function 1 stores b there and answers the old word,
// any other answers constant 0 and stores nothing.
#[derive(Drop)]
pub struct Seats<'r> {
    pub row: &'r mut [u32; 64],
}

impl<'r> Host for Seats<'r> {
    type Value = Word;

    ghost State = { List ℕ };

    ghost state = { λ s. s.row.now };

    ghost means = { seats };

    ghost lent = { λ s. s.row.ghost_name ∷ [] };

    fn ask(&mut self, function: u8, a: Word, b: Word) -> Word {
        let seat = (a.0 % 64) as usize;
        let old = self.row[seat];
        match function {
            0 => Word(old),
            1 => {
                self.row[seat] = b.0;
                Word(old)
            }
            _ => Word(0),
        }
    }
}

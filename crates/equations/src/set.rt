// A set of equations as a row of words: a word for each location, in it a bit for each temporary.
ghost use Rattle.std.specs.Prelude.{◌≡◌, ℕ, ◌<◌, not, ◌&&◌, ◌||◌, IfSome, length, ◌==◌};
ghost use Rattle.sets.specs.Masks.{bit, names};
ghost use Rattle.equations.specs.Equations.{back_move, back_moves, renamed, dropped, held};
ghost use Rattle.equations.specs.Steps.{with, either, MovesReach};

use allocation::line::Move;
use sets::mask::{empty, mask_of, single, union, without};

#[derive(Clone, Copy)]
pub struct EquationSet {
    pub words: [u64; 64],
    ghost long: { length words ≡ 64 },
}

impl EquationSet {
    // With the temporaries of `mask` at location `l`.
    pub(crate) fn add(&mut self, l: u8, mask: u64)
        requires { l < 64 }
        ensures { held self.new.words ≡ with l (bit mask) (held self.old.words) }
    {
        self.words[l as usize] = union(self.words[l as usize], mask);
    }

    // Back over one move.
    fn back_move(&mut self, m: Move)
        requires to { m.to < 64 }
        requires from { m.from < 64 }
        ensures { held self.new.words ≡ back_move m (held self.old.words) }
    {
        let moved = self.words[m.to as usize];
        self.words[m.to as usize] = empty();
        self.add(m.from, moved);
    }

    // Back over moves made in order.
    pub(crate) fn back_moves(&mut self, moves: &[Move])
        requires { MovesReach moves.now }
        ensures { held self.new.words ≡ back_moves moves.now (held self.old.words) }
    {
        for m in moves.iter().rev() {
            self.back_move(*m);
        }
    }

    // Without the equations that name a temporary of `mask`.
    fn remove(&mut self, mask: u64)
        ensures { (k v : ℕ) → held self.new.words (k, v) ≡ (held self.old.words (k, v) && not (bit mask v)) }
    {
        for word in self.words.iter_mut() {
            *word = without(*word, mask);
        }
    }

    // Without the equations that name the temporary or the location.
    pub(crate) fn drop_named(&mut self, temporary: Option<u8>, location: Option<u8>)
        requires temporary { IfSome temporary (λ v. v < 64) }
        requires location { IfSome location (λ l. l < 64) }
        ensures { held self.new.words ≡ dropped temporary location (held self.old.words) }
    {
        self.remove(mask_of(temporary));
        if let Some(l) = location {
            self.words[l as usize] = empty();
        }
    }

    // Each equation of `d` becomes one of `a`.
    pub(crate) fn rename(&mut self, d: u8, a: u8)
        requires d { d < 64 }
        requires a { a < 64 }
        ensures { held self.new.words ≡ renamed d a (held self.old.words) }
    {
        for word in self.words.iter_mut() {
            *word = rename_word(*word, d, a);
        }
    }

    // The union of two sets.
    pub(crate) fn join(&mut self, other: &EquationSet)
        ensures { held self.new.words ≡ either (held self.old.words) (held other.now.words) }
    {
        for (l, word) in self.words.iter_mut().enumerate() {
            *word = union(*word, other.words[l]);
        }
    }
}

// The word in which temporary `d` becomes `a`.
fn rename_word(word: u64, d: u8, a: u8) -> u64
    requires d { d < 64 }
    requires a { a < 64 }
    ensures { (v : ℕ) → bit result v ≡ ((bit word v && not (v == d)) || (v == a && bit word d)) }
{
    let rest = without(word, single(d));
    if rest == word {
        word
    } else {
        union(rest, single(a))
    }
}

// Where the lines of a text go: they are counted, or written.
ghost use Rattle.std.specs.Prelude.{◌≡◌, ℕ, ◌+◌, ◌-◌, ◌≤◌, List, [], ◌++◌, map, length, refl};
ghost use Rattle.std.proofs.Common.{◌∙◌};
ghost use Rattle.text.specs.Parts.{ended};
ghost use Rattle.text.specs.Put.{piece_bytes};
ghost use Rattle.writer.specs.Sinks.{Puts, InOrder, AddedUpTo};
ghost use Rattle.writer.specs.SinkLaws.{counted_none, counted_both, added_nothing, added_more, added_left};

use text::put::{Piece, line_fits, put_line};

// What takes lines one after another, and refuses one that does not fit.
pub(crate) trait Sink {
    // how many more bytes fit
    ghost room: { Self → ℕ };

    // the bytes, what it is before it takes them, and what it is then
    ghost Takes: { List ℕ → Self → Self → Type 0 };

    fn put(&mut self, row: &[Piece]) -> Option<()>
        ensures { Puts room Takes (ended (map piece_bytes row.now)) self.old result self.new };

    ghost in_order: { InOrder room Takes };
}

// A count of how many more bytes fit.
#[derive(Drop)]
pub(crate) struct Room {
    pub(crate) left: usize,
}

impl Sink for Room {
    ghost room = { λ s. s.left };

    ghost Takes = { λ bs s t. t.left + length bs ≡ s.left };

    fn put(&mut self, row: &[Piece]) -> Option<()> {
        self.left = line_fits(row, self.left)?;
        Some(())
    }

    ghost in_order = { record {
      none = λ s. counted_none s.left;
      both = λ a b s t u. counted_both a b s.left t.left u.left;
      left = λ bs s t h. h;
    } };
}

// A buffer, and the place in it where the next line goes.
#[derive(Drop)]
pub(crate) struct Writer<'a> {
    pub(crate) out: &'a mut [u8],
    pub(crate) at: usize,
    ghost within: { at ≤ length out.now },
}

impl Sink for Writer<'_> {
    ghost room = { λ s. length s.out.now - s.at };

    ghost Takes = { λ bs s t. AddedUpTo bs s.at s.out.now t.at t.out.now × (t.out.ghost_name ≡ s.out.ghost_name) };

    fn put(&mut self, row: &[Piece]) -> Option<()> {
        line_fits(row, self.out.len() - self.at)?;
        self.at += put_line(&mut self.out[self.at..], row);
        Some(())
    }

    ghost in_order = { record {
      none = λ s. (added_nothing s.at s.out.now s.within, refl);
      both = λ a b s t u p q. (added_more a b s.out.now t.out.now u.out.now s.at t.at u.at p.0 q.0, q.1 ∙ p.1);
      left = λ bs s t h. added_left bs s.out.now t.out.now s.at t.at h.0;
    } };
}

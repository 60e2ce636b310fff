// The moves that bring operands to registers, send results home and copy.
ghost use Rattle.std.specs.Prelude.{◌≡◌, ◌-◌, ◌<◌, true, [], ◌∷◌, length};
ghost use Rattle.allocation.specs.Ranges.{move_fits};
ghost use Rattle.places.specs.Publish.{◌⇐◌, bring, bring_two, send, copy};
ghost use Rattle.places.specs.Steps.{Added, Open, place_of};

use crate::layout::Layout;
use allocation::line::Move;
use allocation::tables::Tables;

impl Layout<'_> {
    // Brings temporary v to the register `spare`, where it stands in its slot.
    pub(crate) fn bring(&self, tables: &mut Tables, v: u8, spare: u8)
        requires ready { Open tables.old self.now 1 }
        requires within { v < length self.now.places.now }
        requires spare { spare < self.now.registers }
        ensures { Added tables.old tables.new (bring self.now.registers spare (place_of self.now v)) }
    {
        let from = self.locate(v);
        if from >= self.registers {
            tables.push_move(Move { to: spare, from });
        }
    }

    // Brings two operands.
    pub(crate) fn bring_both(&self, tables: &mut Tables, first: u8, second: u8)
        requires ready { Open tables.old self.now 2 }
        requires first { first < length self.now.places.now }
        requires second { second < length self.now.places.now }
        ensures { Added tables.old tables.new (bring_two self.now.registers (place_of self.now first) (place_of self.now second)) }
    {
        self.bring(tables, first, self.registers - 2);
        self.bring(tables, second, self.registers - 1);
    }

    // Moves the result v from register R - 2 to its slot.
    pub(crate) fn send_home(&self, tables: &mut Tables, v: u8)
        requires ready { Open tables.old self.now 1 }
        requires within { v < length self.now.places.now }
        ensures { Added tables.old tables.new (send self.now.registers (place_of self.now v)) }
    {
        let to = self.locate(v);
        if to >= self.registers {
            tables.push_move(Move {
                to,
                from: self.registers - 2,
            });
        }
    }

    // Copies one temporary to another; two slots go through register R - 2.
    pub(crate) fn copy(&self, tables: &mut Tables, target: u8, origin: u8)
        requires ready { Open tables.old self.now 2 }
        requires target { target < length self.now.places.now }
        requires origin { origin < length self.now.places.now }
        ensures { Added tables.old tables.new (copy self.now.registers (place_of self.now target) (place_of self.now origin)) }
    {
        let to = self.locate(target);
        let from = self.locate(origin);
        if to == from {
            return;
        }
        if to < self.registers || from < self.registers {
            tables.push_move(Move { to, from });
        } else {
            let through = self.registers - 2;
            tables.push_move(Move { to: through, from });
            tables.push_move(Move { to, from: through });
        }
    }
}

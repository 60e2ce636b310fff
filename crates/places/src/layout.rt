// Where all temporaries are while their lines are published.
ghost use Rattle.std.specs.Prelude.{◌≡◌, ℕ, ◌+◌, ◌<◌, ◌≤◌, length};
ghost use Rattle.places.specs.Places.{locations};

use crate::place::Place;

// A place for each temporary, and a slot for each behind the registers.
// Registers R - 2 and R - 1 are free for what stands at home.
#[derive(Clone, Copy)]
pub(crate) struct Layout<'a> {
    pub(crate) registers: u8,
    pub(crate) places: &'a [Place],
    ghost low: { 3 ≤ registers },
    ghost high: { registers ≤ 16 },
    ghost few: { length places.now ≤ 48 },
    ghost inside: { ((v : ℕ) → v < length places.now → locations registers places.now v < registers + length places.now) },
}

impl Layout<'_> {
    ghost use Rattle.places.specs.Publish.{register_for};
    ghost use Rattle.places.specs.Steps.{place_of};

    // The location of temporary v.
    pub(crate) fn locate(&self, v: u8) -> u8
        requires { v < length self.now.places.now }
        ensures { result ≡ place_of self.now v }
    {
        match self.places[v as usize] {
            Place::Home => self.registers + v,
            Place::Register(x) => x,
        }
    }

    // The register by which a main line names temporary v: its own, or `spare` in place of its slot.
    pub(crate) fn name(&self, v: u8, spare: u8) -> u8
        requires { v < length self.now.places.now }
        ensures { result ≡ register_for self.now.registers spare (place_of self.now v) }
    {
        let location = self.locate(v);
        if location < self.registers {
            location
        } else {
            spare
        }
    }
}

// A placer gives each temporary a place, and its places are consistent.
ghost use Rattle.std.specs.Prelude.{◌≡◌, ℕ, ◌≤◌, Bool, List, length};
ghost use Rattle.source.specs.Reading.{Source};
ghost use Rattle.places.specs.declared.place.Place.{Place};
ghost use Rattle.places.specs.Places.{source_of, live_of, homes, Lawful};
ghost use Rattle.places.specs.Homes.{homes_owed};

use crate::place::Place;
use loader::held::LoadedSource;

pub trait Placer {
    // the places of a source's temporaries, by what is live and the number of registers
    ghost places: { Self → Source → (ℕ → ℕ → Bool) → ℕ → List Place };

    // Writes a place for each temporary.
    fn place(&self, source: &LoadedSource, registers: u8, out: &mut [Place])
        requires room { length out.old ≡ source.now.heading.temporaries }
        requires low { 3 ≤ registers }
        requires high { registers ≤ 16 }
        ensures { out.new ≡ places self.now (source_of source.now) (live_of source.now) registers };

    ghost lawful: { (x : Self) → Lawful (places x) };
}

// Every temporary at home.
#[derive(Clone, Copy)]
pub struct AllHome;

impl Placer for AllHome {
    ghost places = { λ _ s L R. homes s };

    ghost lawful = { λ x s L R low high sound live arrive. homes_owed s R L };

    fn place(&self, source: &LoadedSource, registers: u8, out: &mut [Place]) {
        out.fill(Place::Home);
    }
}

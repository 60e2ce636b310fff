// Either placer.
ghost use Rattle.std.specs.Prelude.{◌≡◌};
ghost use Rattle.std.specs.Result.{result_ok};
ghost use Rattle.choices.specs.Chosen.{placer_of, places_of};
ghost use Rattle.places.specs.Homes.{homes_owed};
ghost use Rattle.colouring.specs.Consistency.{colouring_owed};
ghost use Rattle.choices.specs.declared.placer.AnyPlacer.TheVariants.{Colouring, AllHome};

use colouring::placer::Colouring;
use loader::held::LoadedSource;
use places::place::Place;
use places::placer::{AllHome, Placer};
use std::str::FromStr;

#[derive(Clone, Copy, PartialEq, Eq, Debug)]
pub enum AnyPlacer {
    Colouring,
    AllHome,
}

// A word that names no placer.
#[derive(Clone, Copy, PartialEq, Eq, Debug)]
pub struct NoPlacer;

impl FromStr for AnyPlacer {
    type Err = NoPlacer;

    ghost from_str_gives = { λ bs r. result_ok r ≡ placer_of bs };

    fn from_str(s: &str) -> Result<AnyPlacer, NoPlacer> {
        match s {
            "colouring" => Ok(AnyPlacer::Colouring),
            "home" => Ok(AnyPlacer::AllHome),
            _ => Err(NoPlacer),
        }
    }
}

impl Placer for AnyPlacer {
    ghost places = { places_of };

    ghost lawful = { elim [
      | Colouring ↦ λ s L R low high sound live arrive. colouring_owed s L R low
      | AllHome ↦ λ s L R low high sound live arrive. homes_owed s R L
    ] };

    fn place(&self, source: &LoadedSource, registers: u8, out: &mut [Place]) {
        match self {
            AnyPlacer::Colouring => Colouring.place(source, registers, out),
            AnyPlacer::AllHome => AllHome.place(source, registers, out),
        }
    }
}

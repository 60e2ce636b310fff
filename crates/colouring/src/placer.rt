// The placer.
ghost use Rattle.colouring.specs.Colouring.{colouring};
ghost use Rattle.colouring.specs.Consistency.{colouring_owed};

use crate::conflicts::{find_conflicts, find_used};
use crate::graph::Graph;
use loader::held::LoadedSource;
use places::place::Place;
use places::placer::Placer;
use sets::mask::{below, intersection};

// Places by colouring.
#[derive(Clone, Copy)]
pub struct Colouring;

impl Placer for Colouring {
    ghost places = { λ _ s L R. colouring s L R };

    ghost lawful = { λ x s L R low high sound live arrive. colouring_owed s L R low };

    fn place(&self, source: &LoadedSource, registers: u8, out: &mut [Place]) {
        let conflicts = find_conflicts(source);
        let graph = Graph {
            rows: conflicts.as_slice(),
            left: intersection(find_used(source), below(source.heading.temporaries)),
            registers: registers - 2,
        };
        graph.colour(out.len(), out);
    }
}

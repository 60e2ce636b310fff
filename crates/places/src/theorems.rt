// Laws of published lines: each function's contract is one.
ghost use Rattle.places.specs.Laws.{ConsistentPlacesPass, AlwaysPasses, PublishedLinesFew, PublishedLinesWellFormed};

use crate::placer::Placer;

// Lines published for consistent places pass the check.
pub fn consistent_places_pass()
    ensures { ConsistentPlacesPass }
{
    // the contract is all that there is
}

pub fn few_moves()
    ensures { PublishedLinesFew }
{
    // the contract is all that there is
}

pub fn published_lines_well_formed()
    ensures { PublishedLinesWellFormed }
{
    // the contract is all that there is
}

// The lines published for any placer's places pass the check.
pub fn every_placer_passes<P: Placer>(placer: &P)
    ensures { AlwaysPasses (P.Placer.places placer.now) }
{
    // the contract is all that there is
}

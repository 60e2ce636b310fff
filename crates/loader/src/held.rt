// What is held, for whoever builds on it.
ghost use Rattle.std.specs.Prelude.{◌≡◌, ◌<◌, ◌≤◌, length};
ghost use Rattle.source.specs.Nodes.{AllSound};

use crate::holder::Loader;
use source::heading::Heading;
use source::node::Node;
use source::table::Table;

// A source that can be placed: its numbers, its nodes, and for each node the mask of the temporaries live into it.
#[derive(Clone, Copy)]
pub struct LoadedSource<'a> {
    pub heading: Heading,
    pub nodes: &'a [Node],
    pub live: &'a [u64],
    ghost few: { heading.temporaries ≤ 48 },
    ghost within: { heading.parameters ≤ heading.temporaries },
    ghost some: { 0 < length nodes.now },
    ghost sound: { AllSound heading.temporaries nodes.now },
    ghost words: { length live.now ≡ length nodes.now },
}

impl Loader {
    ghost use Rattle.std.specs.Prelude.{ℕ, true, None, Some, MatchOption};
    ghost use Rattle.source.specs.Tables.{nodes_in};
    ghost use Rattle.loader.specs.Live.{Liveness, live_sets};
    ghost use Rattle.loader.specs.Load.{Shows, live_words};

    // The numbers of the loaded source, if one is loaded.
    pub fn heading(&self) -> Option<Heading>
        ensures { result ≡ self.now.loaded }
    {
        self.loaded
    }

    // Its table of nodes, for the check.
    pub fn table(&self) -> &Table
        ensures table { result.now ≡ self.now.tables.nodes }
        ensures sound { (h : Heading) → self.now.loaded ≡ Some h → AllSound h.temporaries (nodes_in result.now) }
        ensures few { (h : Heading) → self.now.loaded ≡ Some h → h.temporaries ≤ 48 }
        ensures some { (h : Heading) → self.now.loaded ≡ Some h → 0 < h.nodes }
        ensures long { (h : Heading) → self.now.loaded ≡ Some h → length (nodes_in result.now) ≡ h.nodes }
    {
        &self.tables.nodes
    }

    // Its nodes.
    pub fn nodes(&self) -> &[Node]
        ensures nodes { result.now ≡ nodes_in self.now.tables.nodes }
        ensures sound { (h : Heading) → self.now.loaded ≡ Some h → AllSound h.temporaries result.now }
    {
        self.tables.nodes.nodes()
    }

    // For each of its nodes, the mask of the temporaries live into it.
    pub fn live(&self) -> &[u64]
        ensures words { result.now ≡ live_words self.now }
        ensures entry { (h : Heading) → self.now.loaded ≡ Some h → (v : ℕ) → live_sets result.now 0 v ≡ true → v < h.parameters }
        ensures live { (h : Heading) → self.now.loaded ≡ Some h → Liveness (nodes_in self.now.tables.nodes) (live_sets result.now) }
    {
        self.tables.live.as_slice()
    }

    // The loaded source, if one is loaded.
    pub fn source(&self) -> Option<LoadedSource<'_>>
        ensures { MatchOption result (self.now.loaded ≡ None) (Shows self.now) }
    {
        let heading = self.heading()?;
        Some(LoadedSource {
            heading,
            nodes: self.nodes(),
            live: self.live(),
        })
    }
}

// What holds the loaded source, with as much room again to read another one before it takes its place.
ghost use Rattle.std.specs.Prelude.{◌≡◌, ◌<◌, ◌≤◌, length, Some, vec_capacity};
ghost use Rattle.source.specs.Tables.{nodes_in};
ghost use Rattle.source.specs.declared.heading.Heading.{Heading};
ghost use Rattle.loader.specs.Live.{Loaded};

use source::heading::Heading;
use source::table::Table;

// The nodes of a source, and a mask for each node: the temporaries live into it. The masks are a row of their own, since
// they are lent as one slice.
#[derive(Drop)]
pub struct Tables {
    pub(crate) nodes: Table,
    pub(crate) live: Vec<u64>,
    ghost room: { 256 ≤ vec_capacity live },
}

#[derive(Drop)]
pub struct Loader {
    pub(crate) loaded: Option<Heading>,
    pub(crate) tables: Tables,
    pub(crate) spare: Tables,
    ghost few: { ((h : Heading) → loaded ≡ Some h → h.temporaries ≤ 48) },
    ghost some: { ((h : Heading) → loaded ≡ Some h → 0 < h.nodes) },
    ghost few_nodes: { ((h : Heading) → loaded ≡ Some h → h.nodes ≤ 256) },
    ghost few_parameters: { ((h : Heading) → loaded ≡ Some h → h.parameters ≤ 8) },
    ghost within: { ((h : Heading) → loaded ≡ Some h → h.parameters ≤ h.temporaries) },
    ghost long: { ((h : Heading) → loaded ≡ Some h → length (nodes_in tables.nodes) ≡ h.nodes) },
    ghost words: { ((h : Heading) → loaded ≡ Some h → length tables.live.items ≡ h.nodes) },
    ghost stands: { ((h : Heading) → loaded ≡ Some h → ∥ Loaded h (nodes_in tables.nodes) tables.live.items ∥₁) },
}

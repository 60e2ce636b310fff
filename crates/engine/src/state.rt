// What an engine holds. All its tables are reserved when it is made.
ghost use Rattle.std.specs.Prelude.{◌≡◌, Some};
ghost use Rattle.source.specs.Tables.{source_in};
ghost use Rattle.allocation.specs.Allocations.{allocation_of};
ghost use Rattle.engine.specs.Stands.{Stands};
ghost use Rattle.engine.specs.declared.standing.Standing.{Standing};

use crate::standing::Standing;
use allocation::tables::Tables;
use loader::holder::Loader;
use reading::reader::Reader;
use source::table::Table;

// The standing allocation is in `tables`, its source in `source`; an offer is read into the reader's own tables, and a
// placement published in `draft`, until it is accepted.
#[derive(Drop)]
pub struct Engine {
    pub(crate) loader: Loader,
    pub(crate) reader: Reader,
    pub(crate) draft: Tables,
    pub(crate) standing: Option<Standing>,
    pub(crate) tables: Tables,
    pub(crate) source: Table,
    ghost accepted: { ((h : Standing) → standing ≡ Some h → ∥ Stands (source_in h.source source) (allocation_of tables) h.placed ∥₁) },
}

ghost use Rattle.table.specs.Held.{held};
ghost use Rattle.table.proofs.Tested.{strict_prop};
ghost use Rattle.table.specs.Order.{Strict};
ghost use Rattle.text.specs.Names.{name_order};

use table::Table;
use text::name::Name;

// A roll of names, each once. At a row type that is known the order can be a fact of the struct.
#[derive(Drop)]
pub struct Roll {
    pub(crate) names: Table<Name>,
    ghost strict: { Strict name_order (held names) } by { strict_prop name_order (held names) },
}

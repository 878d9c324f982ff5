ghost use Rattle.std.specs.Prelude.{ℕ, List};
ghost use Rattle.text.specs.Names.{name_bytes, name_order};
ghost use Rattle.text.proofs.Ordered.{names_in_order};

use crate::rows::Row;
use text::name::Name;

// Names stand in the order of their bytes, and a name is its own key.
impl Row for Name {
    ghost compare = { name_order };

    ghost keys = { List ℕ };

    ghost key = { name_bytes };

    ghost says = { λ x y r h. h };

    ghost flip = { names_in_order.total.antisymm };

    ghost trans = { names_in_order.total.trans };

    ghost alike = { names_in_order.total.congr };

    ghost ties = { names_in_order.ties };

    ghost keyed = { names_in_order.itself };
}

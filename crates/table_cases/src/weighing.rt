ghost use Rattle.std.specs.Prelude.{◌≡◌, ℕ, nat_eq};
ghost use Rattle.std.specs.Cmp.Rules.{comparing};
ghost use Rattle.std.specs.Ordering.{as_partial_cmp, eq_of_both, on};
ghost use Rattle.std.proofs.Common.{rules};
ghost use Rattle.table_cases.specs.Weighing.{by_scale, by_weight, weighs};
ghost use Rattle.table_cases.specs.Weights.{weights_keyed, weights_tie, weights_total};

use crate::weighed::{Scale, Weighed};
use std::cmp::Ordering;
use table::{Probe, Row};

impl Weighed {
    fn scale(&self) -> Scale
        ensures weight { result.weight ≡ self.now.weight }
        ensures tag { result.tag ≡ self.now.tag }
    {
        Scale {
            weight: self.weight,
            tag: self.tag,
        }
    }
}

// Rows are compared by their keys. A derive would compare the notes too.
impl PartialEq for Weighed {
    ghost eq = { eq_of_both (on (λ v. v.weight) nat_eq) (on (λ v. v.tag) nat_eq) };

    ghost laws = { Prim.search (comparing, rules) };

    fn eq(&self, other: &Weighed) -> bool {
        self.scale() == other.scale()
    }
}

impl Eq for Weighed {
    ghost laws = { Prim.search (comparing, rules) };
}

impl PartialOrd for Weighed {
    ghost partial_cmp = { as_partial_cmp by_weight };

    ghost laws = { Prim.search (comparing, rules) };

    fn partial_cmp(&self, other: &Weighed) -> Option<Ordering> {
        Some(self.cmp(other))
    }
}

impl Ord for Weighed {
    ghost cmp = { by_weight };

    ghost total = { Prim.search (comparing, rules) };

    ghost matches_partial_cmp = { Prim.search (comparing, rules) };

    ghost matches_eq = { Prim.search (comparing, rules) };

    fn cmp(&self, other: &Weighed) -> Ordering {
        // By hand: the keys' derived order takes twice the steps where rows are compared in a loop,
        // as `insert` and `keep_first` of a table do.
        match self.weight.cmp(&other.weight) {
            Ordering::Equal => self.tag.cmp(&other.tag),
            unequal => unequal,
        }
    }
}

impl Row for Weighed {
    ghost compare = { by_weight };

    ghost keys = { ℕ × ℕ };

    ghost key = { weighs };

    ghost says = { λ x y r h. h };

    ghost flip = { weights_total.antisymm };

    ghost trans = { weights_total.trans };

    ghost alike = { weights_total.congr };

    ghost ties = { weights_tie };

    ghost keyed = { weights_keyed };
}

impl Probe<Weighed> for Scale {
    ghost stands = { by_scale };

    ghost rises = { Prim.search rules };

    ghost one = { Prim.search rules };

    fn compared(&self, row: &Weighed) -> Ordering {
        row.scale().cmp(self)
    }
}

ghost use Rattle.std.specs.Ordering.{ordering_reverse};
ghost use Rattle.std.specs.Prelude.{◌≡◌};
ghost use Rattle.std.specs.declared.cmp.Ordering.TheVariants.{Less, Equal};
ghost use Rattle.std.specs.declared.cmp.Ordering.{Ordering};

// What stands in an ordered table: a type whose order is total.
//
// Rows that tie are the rows with one key, so a search among the rows is a search by key.
pub trait Row: Ord {
    // The answer of `cmp` on two rows.
    ghost compare: { Self → Self → Ordering };

    // What a row is found by.
    ghost keys: { Type 0 };

    ghost key: { Self → keys };

    ghost says: { (x y : Self) (r : Ordering) → (r ≡ Self.Ord.cmp x y) → r ≡ compare x y };

    ghost flip: { (x y : Self) → compare x y ≡ ordering_reverse (compare y x) };

    ghost trans: { (x y z : Self) → compare x y ≡ Less → compare y z ≡ Less → compare x z ≡ Less };

    ghost alike: { (x y z : Self) → compare x y ≡ Equal → compare x z ≡ compare y z };

    ghost ties: { (x y : Self) → compare x y ≡ Equal → key x ≡ key y };

    ghost keyed: { (x y : Self) → key x ≡ key y → compare x y ≡ Equal };
}

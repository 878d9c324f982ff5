// A column is stored counted from 0 and printed counted from 1, and only what writes a place turns
// one into the other. So these are two structs, and no generic one, since neither may stand for the
// other: a rule of the project.
ghost use Rattle.std.specs.Prelude.{◌≡◌, ◌+◌};

#[derive(Clone, Copy)]
pub struct StoredColumn(pub u32);

// One bit wider would do: each stored column has a printed one.
#[derive(Clone, Copy)]
pub struct PrintedColumn(pub u64);

impl From<StoredColumn> for PrintedColumn {
    ghost from_gives = { λ s r. r.0 ≡ s.0 + 1 };

    fn from(stored: StoredColumn) -> PrintedColumn {
        PrintedColumn(u64::from(stored.0) + 1)
    }
}

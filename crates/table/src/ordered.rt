ghost use Rattle.std.specs.Prelude.{◌≤◌, vec_len, vec_capacity};

// Rows in order, at most `limit` of them, and how many came to be kept among the first.
//
// The room for `limit` rows is reserved, so that no row that is let in asks for memory. No map
// serves: it asks for memory at a new key, and holds only one of the rows that tie.
//
// That the rows stand in order is no fact of the type. It would cite `R.compare`, and so ask
// `R: Row` of the type and of each call that asks nothing of `R`: a ghost field cannot cite a bound
// that the struct lacks, and an `impl Model` has its struct's bounds. So the calls that change the
// rows say instead that rows that stood in order stand in order.
#[derive(Drop)]
pub struct Table<R> {
    pub(crate) rows: Vec<R>,
    pub(crate) limit: usize,
    pub(crate) came: usize,
    ghost reserved: { limit ≤ vec_capacity rows },
    ghost within: { vec_len rows ≤ limit },
}

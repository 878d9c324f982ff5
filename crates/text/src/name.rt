// A name: at most 255 bytes of UTF-8, held in place, so that a row of a table can carry it and nothing allocates.
ghost use Rattle.std.specs.Prelude.{◌≡◌, true, take};
ghost use Rattle.text.specs.Utf8.{utf8};

// An array with its length, since memory is fixed: a `Vec` would ask for memory, and the kit's
// `ArrayVec` is not `Copy`, as a name is. Its `ArrayString` is, but a function that uses a name by
// value twice then gets no proof.
#[derive(Clone, Copy)]
pub struct Name {
    pub(crate) len: u8,
    pub(crate) bytes: [u8; 255],
    ghost text: { utf8 (take len bytes) ≡ true },
}

ghost use Rattle.std.specs.Prelude.{◌≤◌, vec_len, vec_capacity};

use crate::entries::Entry;

// The caller's own catalogue: room for `limit` names, reserved when it is made.
//
// A list that is searched from the front, and not a map: a tree map asks for memory at each new
// name, which registering must not, and for a hash map each name that is asked would first be copied
// into a key. The ordered table of the crate `table` has these two fields and facts too, and is made
// alike, but the crates know nothing of one another, so the two types stay apart.
#[derive(Drop)]
pub struct Registry {
    pub(crate) entries: Vec<Entry>,
    pub(crate) limit: usize,
    ghost reserved: { limit ≤ vec_capacity entries },
    ghost within: { vec_len entries ≤ limit },
}

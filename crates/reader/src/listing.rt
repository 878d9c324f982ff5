// A record that was read: its source and the list of its commands.
ghost use Rattle.std.specs.Prelude.{◌≡◌, true, []};
ghost use Rattle.reader.specs.Places.{placed};

use record::command::Entry;

// Each entry names the innermost container that its command stands in, by the index of its opener.
// A tree would be no plainer: the record is a flat list, which is written out again byte for byte,
// and callers ask by that index.
#[derive(Drop)]
pub struct Listing {
    pub(crate) source: String,
    pub(crate) entries: Vec<Entry>,
    ghost innermost: { placed [] entries.items ≡ true },
}

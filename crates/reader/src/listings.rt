// What a listing holds.
ghost use Rattle.std.specs.Prelude.{◌≡◌, true, []};
ghost use Rattle.reader.specs.Places.{placed};
ghost use Rattle.reader.specs.Records.{entries_of, source_of};

use crate::listing::Listing;
use record::command::Entry;

impl Listing {
    pub fn source(&self) -> &str
        ensures { result.now ≡ source_of self.now }
    {
        self.source.as_str()
    }

    // The commands in the order of the record, each with the innermost container that it stands in.
    pub fn entries(&self) -> &[Entry]
        ensures entries { result.now ≡ entries_of self.now }
        ensures innermost { placed [] result.now ≡ true }
    {
        self.entries.as_slice()
    }
}

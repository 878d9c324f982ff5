// The chunks of a template: the commands that stand directly in one container, or in the body.
ghost use Rattle.std.specs.Prelude.{◌≡◌, [], IfOk, filter};
ghost use Rattle.record.specs.declared.command.Entry.{Entry};
ghost use Rattle.reader.specs.Places.{commands_of, same_owner};
ghost use Rattle.reader.specs.Records.{entries_of, source_of};
ghost use Rattle.chunks.specs.Chunks.{calls_super, chunk_of};

use crate::references::is_super;
use reader::listing::Listing;
use record::command::{Entry, Owner};
use std::alloc::{AllocError, Global};

fn stands_in(owner: Owner, entry: &Entry) -> bool
    ensures { result ≡ same_owner owner entry.now.owner }
{
    entry.owner == owner
}

// The commands of which `owner` is the innermost container, in record order. A function of the listing
// and an allocator, as those of `references` are.
//
// One closure tests an entry and copies it: `filter` and `copied` apart take longer for each entry.
pub fn chunk(heap: Global, listing: &Listing, owner: Owner) -> Result<Vec<Entry>, AllocError>
    ensures entries { IfOk result (λ v. v.items ≡ filter (λ (e : Entry). same_owner owner e.owner) (entries_of listing.now)) }
    ensures innermost { IfOk result (λ v. commands_of v.items ≡ chunk_of owner [] (commands_of (entries_of listing.now))) }
{
    listing
        .entries()
        .iter()
        .filter_map(|entry| if stands_in(owner, entry) {
            Some(*entry)
        } else {
            None
        })
        .collect(heap)
}

// Whether one of the entries that name `owner` is a call of the function `super`.
fn calls_super(source: &[u8], owner: Owner, entries: &[Entry]) -> bool
    ensures { result ≡ calls_super source.now (commands_of (filter (λ (e : Entry). same_owner owner e.owner) entries.now)) }
{
    entries
        .iter()
        .filter(|entry| stands_in(owner, entry))
        .map(|entry| entry.command)
        .any(|command| is_super(source, command))
}

// Whether the chunk calls super: a call of the function `super` stands directly in it.
pub fn chunk_calls_super(listing: &Listing, owner: Owner) -> bool
    ensures { result ≡ calls_super (source_of listing.now) (chunk_of owner [] (commands_of (entries_of listing.now))) }
{
    calls_super(listing.source().as_bytes(), owner, listing.entries())
}

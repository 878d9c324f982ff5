// What a template refers to, its parent, its variables and its containers.
//
// What makes a list takes the listing and an allocator. These are functions, since the methods of
// `Listing` stand in its own crate, `reader`.
ghost use Rattle.std.specs.Prelude.{◌≡◌, IfOk};
ghost use Rattle.std.specs.List.{filter_map};
ghost use Rattle.reader.specs.Places.{commands_of};
ghost use Rattle.reader.specs.Records.{entries_of, source_of};
ghost use Rattle.chunks.specs.References.{call_of, extended, is_super, opener_of, parent_of, variable_of};

use crate::call::Call;
use reader::listing::Listing;
use record::command::{Command, Container};
use record::letter::Reference;
use std::alloc::{AllocError, Global};
use text::part::Part;

// Whether the command calls up to the block of its name further up: a call of the function `super`.
pub fn is_super(source: &[u8], command: Command) -> bool
    ensures { result ≡ is_super source.now command }
{
    matches!(command, Command::Refer(Reference::Function, name, _)
        if name.bytes(source) == b"super".as_slice())
}

// What the command refers to; a call of `super` refers to nothing outside.
pub fn call(source: &[u8], command: Command) -> Option<Call>
    ensures { result ≡ call_of source.now command }
{
    if is_super(source, command) {
        return None;
    }
    match command {
        Command::Refer(kind, name, span) => Some(Call { kind, name, span }),
        _ => None,
    }
}

// Every reference of the template, at any depth, in record order.
pub fn references(heap: Global, listing: &Listing) -> Result<Vec<Call>, AllocError>
    ensures { IfOk result (λ v. v.items ≡ filter_map (call_of (source_of listing.now)) (commands_of (entries_of listing.now))) }
{
    let source = listing.source().as_bytes();
    listing
        .entries()
        .iter()
        .map(|entry| entry.command)
        .filter_map(|command| call(source, command))
        .collect(heap)
}

// The variable that the command reads at the top level. `variable` and `extended` stay two functions:
// each matches a case, and a case cannot be a parameter.
pub fn variable(command: Command) -> Option<Part>
    ensures { result ≡ variable_of command }
{
    match command {
        Command::Variable(name) => Some(name),
        _ => None,
    }
}

// Every top-level variable, at any depth, in record order; one that is read twice is there twice.
pub fn variables(heap: Global, listing: &Listing) -> Result<Vec<Part>, AllocError>
    ensures { IfOk result (λ v. v.items ≡ filter_map variable_of (commands_of (entries_of listing.now))) }
{
    listing
        .entries()
        .iter()
        .map(|entry| entry.command)
        .filter_map(variable)
        .collect(heap)
}

// The parent that the command names.
pub fn extended(command: Command) -> Option<Part>
    ensures { result ≡ extended command }
{
    match command {
        Command::Extends(name) => Some(name),
        _ => None,
    }
}

// The parent, as it is written.
pub fn parent(listing: &Listing) -> Option<Part>
    ensures { result ≡ parent_of (commands_of (entries_of listing.now)) }
{
    listing
        .entries()
        .first()
        .and_then(|entry| extended(entry.command))
}

// The place of the command that opens the container of that kind and name: apart, as in
// `Command::opens`.
pub fn opener(listing: &Listing, kind: Container, name: &[u8]) -> Option<usize>
    ensures { result ≡ opener_of (source_of listing.now) kind name.now (commands_of (entries_of listing.now)) }
{
    let source = listing.source().as_bytes();
    listing
        .entries()
        .iter()
        .map(|entry| entry.command)
        .position(|command| command.opens(source, kind, name))
}

// What the program prints of a template.
use crate::samples::Sample;
use crate::shown::{ShownCommand, ShownNumber, ShownPlace, text};
use builtin::Builtin;
use catalogue::{Catalogue, Kind};
use chunks::chunk::{chunk, chunk_calls_super};
use chunks::references::{parent, references, variables};
use reader::listing::Listing;
use reader::read::read;
use record::command::{Command, Owner};
use record::fault::ReadError;
use record::letter::Reference;
use std::alloc::Global;
use std::io;

// What the printing functions share: the runtime, the allocator and the catalogue.
#[derive(Drop)]
pub(crate) struct Show<'a, P, C> {
    pub rt: &'a P,
    pub heap: Global,
    pub names: &'a C,
}

impl<P: Print, C: Catalogue> Show<'_, P, C> {
    // The template's commands, chunks and references, or why its record is refused.
    pub(crate) fn template(&self, sample: Sample) -> io::Result<()> {
        let name = sample.name;
        let bytes = sample.record.len();
        println!(self.rt; "")?;
        println!(self.rt; "{name}: a record of {bytes} bytes")?;
        match read(self.heap, sample.source, sample.record) {
            Ok(listing) => {
                self.commands(&listing)?;
                self.chunks(&listing)?;
                self.references(&listing)
            }
            Err(ReadError::Record(fault)) => println!(self.rt; "  refused {fault}"),
            Err(ReadError::Memory) => println!(self.rt; "  out of memory"),
        }
    }

    // Every command, set in as deep as it stands, with its owner and its place there.
    fn commands(&self, listing: &Listing) -> io::Result<()> {
        println!(self.rt; "  commands")?;
        let source = listing.source();
        let mut indent: usize = 0;
        for (i, entry) in listing.entries().iter().enumerate() {
            let command = ShownCommand {
                source,
                command: entry.command,
            };
            let place = ShownPlace(*entry);
            println!(self.rt; "  {i:>4} {:indent$}{command}  ({place})", "")?;
            match entry.command {
                Command::Open(_, _) => indent = indent.saturating_add(2),
                Command::Close => indent = indent.saturating_sub(2),
                _ => {}
            }
        }
        Ok(())
    }

    // How many commands each chunk has, and whether it calls super.
    fn chunks(&self, listing: &Listing) -> io::Result<()> {
        println!(self.rt; "  chunks")?;
        print!(self.rt; "    body")?;
        self.chunk(listing, Owner::Body)?;
        for (i, entry) in listing.entries().iter().enumerate() {
            if let Command::Open(opener, name) = entry.command {
                let container = opener.container();
                let name = text(listing.source(), name);
                print!(self.rt; "    {container} {name:?}")?;
                self.chunk(listing, Owner::Container(i))?;
            }
        }
        Ok(())
    }

    fn chunk(&self, listing: &Listing, owner: Owner) -> io::Result<()> {
        let count = chunk(self.heap, listing, owner)?.len();
        if chunk_calls_super(listing, owner) {
            println!(self.rt; ": {count} commands, calls super")
        } else {
            println!(self.rt; ": {count} commands, does not call super")
        }
    }

    // The parent, what the template refers to, and its variables.
    fn references(&self, listing: &Listing) -> io::Result<()> {
        let source = listing.source();
        match parent(listing) {
            Some(name) => {
                let name = text(source, name);
                println!(self.rt; "  parent {name:?}")?;
            }
            None => println!(self.rt; "  no parent")?,
        }
        for call in references(self.heap, listing)? {
            let kind = call.kind;
            let name = text(source, call.name);
            print!(self.rt; "  refers to {kind} {name:?}")?;
            self.host_number(kind, name)?;
        }
        for name in variables(self.heap, listing)? {
            let name = text(source, name);
            println!(self.rt; "  variable {name:?}")?;
        }
        Ok(())
    }

    // What the catalogues say of a name.
    fn host_number(&self, reference: Reference, name: &str) -> io::Result<()> {
        let Some(kind) = host_kind(reference) else {
            return println!(self.rt; "");
        };
        let built_in = ShownNumber(Builtin.number(kind, name.as_bytes()));
        let here = ShownNumber(self.names.number(kind, name.as_bytes()));
        println!(self.rt; ": built in {built_in}, here {here}")
    }
}

// The kind under which a catalogue knows what is referred to: catalogues have no components and no
// templates. No `TryFrom`, which would have to stand in the crate of one of the two types, and
// neither of these crates knows the other.
fn host_kind(reference: Reference) -> Option<Kind> {
    match reference {
        Reference::Filter => Some(Kind::Filter),
        Reference::Test => Some(Kind::Test),
        Reference::Function => Some(Kind::Function),
        Reference::Component | Reference::Include => None,
    }
}

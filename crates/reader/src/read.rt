// Reading a record.
ghost use Rattle.reader.specs.Examples.{Examples};
ghost use Rattle.reader.specs.Records.{Judged, Reads};

use crate::listing::Listing;
use crate::state::Reader;
use record::fault::ReadError;
use std::alloc::Global;

// Reads a record over its source, once.
pub fn read<'a>(heap: Global, source: &'a str, record: &'a [u8]) -> Result<Listing, ReadError>
    ensures reads { Reads source.now «record».now result }
    ensures judged { Judged source.now «record».now result }
{
    let mut entries = Vec::new(heap);
    let mut reader = Reader::new(source.as_bytes(), record);
    loop {
        let entry = reader.next(entries.as_slice())?;
        entries.push(entry)?;
        if entry.command.is_end() {
            reader.finish()?;
            let source = String::from_str(heap, source)?;
            return Ok(Listing { source, entries });
        }
    }
}

// The definition of reading computes the worked examples. The number that is given back says
// nothing, and stays, since a public function keeps its signature.
pub fn examples_are_read() -> u8
    ensures { Examples }
{
    0
}

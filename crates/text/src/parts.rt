// What a part names in a source. Its numbers become places by `as`: no `From` leads from `u32` to
// `usize`.
ghost use Rattle.std.specs.Prelude.{◌≡◌};
ghost use Rattle.text.specs.Texts.{PartText, part_bytes};

use crate::fault::TextFault;
use crate::part::Part;
use std::str::from_utf8;

impl Part {
    // The bytes that the part names. Of a part that leaves the source, those that lie inside.
    pub fn bytes(self, source: &[u8]) -> &[u8]
        ensures { result.now ≡ part_bytes source.now self }
    {
        let start = (self.start as usize).min(source.len());
        let rest = &source[start..];
        let len = (self.len as usize).min(rest.len());
        &rest[..len]
    }

    // The text that the part names, or what is wrong with it.
    pub fn text(self, source: &[u8]) -> Result<&str, TextFault>
        ensures { PartText source.now self result }
    {
        let start = self.start as usize;
        let Some(bytes) = source.get(start..start + self.len as usize) else {
            return Err(TextFault::Outside);
        };
        Ok(from_utf8(bytes)?)
    }
}

// How a name is made, read and ordered.
ghost use Rattle.std.specs.Prelude.{◌≡◌, Decides};
ghost use Rattle.std.specs.Cmp.Rules.{comparing};
ghost use Rattle.std.specs.Ordering.{as_partial_cmp, on};
ghost use Rattle.std.specs.Str.{bytes_eq};
ghost use Rattle.std.proofs.Common.{rules};
ghost use Rattle.text.specs.Names.{Named, NamesInOrder, name_bytes, name_order};

use crate::fault::TextFault;
use crate::name::Name;
use std::cmp::Ordering;
use std::str::from_utf8;

impl Name {
    // The name of these bytes: first asked is the length, then the text.
    pub fn new(name: &[u8]) -> Result<Name, TextFault>
        ensures { Named name.now result }
    {
        let Ok(len) = u8::try_from(name.len()) else {
            return Err(TextFault::TooLong);
        };
        from_utf8(name)?;
        let mut bytes = [0u8; 255];
        bytes[..name.len()].copy_from_slice(name);
        Ok(Name { len, bytes })
    }

    pub fn as_bytes(&self) -> &[u8]
        ensures { result.now ≡ name_bytes self.now }
    {
        &self.bytes[..usize::from(self.len)]
    }

    pub fn as_str(&self) -> &str
        ensures { result.now ≡ name_bytes self.now }
    {
        from_utf8(self.as_bytes()).unwrap()
    }
}

// The comparisons are written out: derived ones would compare the length and the unused end of the
// array, and not the bytes of the name alone.
impl PartialEq for Name {
    ghost eq = { on name_bytes bytes_eq };

    ghost laws = { Prim.search (comparing, rules) };

    fn eq(&self, other: &Name) -> bool
        ensures value { result ≡ bytes_eq (name_bytes self.now) (name_bytes other.now) }
        ensures decides { Decides result (name_bytes self.now ≡ name_bytes other.now) }
    {
        self.as_bytes() == other.as_bytes()
    }
}

impl Eq for Name {
    ghost laws = { Prim.search (comparing, rules) };
}

impl PartialOrd for Name {
    ghost partial_cmp = { as_partial_cmp name_order };

    ghost laws = { Prim.search (comparing, rules) };

    fn partial_cmp(&self, other: &Name) -> Option<Ordering> {
        Some(self.cmp(other))
    }
}

impl Ord for Name {
    ghost cmp = { name_order };

    ghost total = { Prim.search (comparing, rules) };

    ghost matches_partial_cmp = { Prim.search (comparing, rules) };

    ghost matches_eq = { Prim.search (comparing, rules) };

    fn cmp(&self, other: &Name) -> Ordering {
        self.as_bytes().cmp(other.as_bytes())
    }
}

// The order of names is total, ties only where the bytes are the same, and puts a beginning before
// the longer name. The number that is given back says nothing: it stays, since a public function
// keeps its signature.
pub fn names_are_ordered() -> u8
    ensures { NamesInOrder }
{
    0
}

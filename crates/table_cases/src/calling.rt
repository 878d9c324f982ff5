ghost use Rattle.std.specs.Prelude.{◌≡◌, IfOk};
ghost use Rattle.table.specs.Calls.{Fresh, PutsExactly};
ghost use Rattle.table.specs.Held.{held};
ghost use Rattle.table.specs.Order.{seek};
ghost use Rattle.text.specs.Names.{name_order};

use crate::roll::Roll;
use std::alloc::{AllocError, Global};
use table::Table;
use text::name::Name;

impl Roll {
    pub fn with_names(heap: Global, limit: usize) -> Result<Roll, AllocError>
        ensures { IfOk result (λ s. Fresh limit s.names) }
    {
        let names = Table::with_rows(heap, limit)?;
        Ok(Roll { names })
    }

    // Adds a name; one that stood there already is given back.
    pub fn add(&mut self, name: Name) -> Result<Option<Name>, Name>
        ensures { PutsExactly name_order self.old.names name result self.new.names }
    {
        self.names.replace(name)
    }

    // Where a name stands.
    pub fn place(&self, name: &Name) -> Option<usize>
        ensures { result ≡ seek (λ other. name_order other name.now) 0 (held self.now.names) }
    {
        self.names.search(name)
    }
}

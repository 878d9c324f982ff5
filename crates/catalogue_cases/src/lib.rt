//! Catalogues at work: a layer of one's own over the built-in names, and cases that are run.
#![tactic(auto)]

ghost use Rattle.builtin.specs.Table.{builtin};
ghost use Rattle.catalogue.specs.Entries.{empty, registry};
ghost use Rattle.catalogue.specs.Meaning.{over};
ghost use Rattle.std.specs.Prelude.{◌≡◌, IfOk};

use builtin::Builtin;
use catalogue::{Overlay, Registry};
use std::alloc::{AllocError, Global};

#[cfg(test)]
mod tests;

// The caller's names over the built-in ones.
pub fn layered(heap: Global, places: usize) -> Result<Overlay<Registry, Builtin>, AllocError>
    ensures { IfOk result (λ o. over (registry o.own) builtin ≡ over (empty places) builtin) }
{
    let own = Registry::with_places(heap, places)?;
    Ok(Overlay {
        own,
        below: Builtin,
    })
}

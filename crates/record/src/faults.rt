// The published numbers of the refusals, and how a fault passes from layer to layer.
ghost use Rattle.std.specs.Prelude.{◌≡◌};
ghost use Rattle.record.specs.Refusals.{layer_of, number_of};
ghost use Rattle.record.specs.declared.fault.Reason.TheVariants.{Text};
ghost use Rattle.record.specs.declared.fault.ReadError.TheVariants.{Record, Memory};

use crate::fault::{Layer, ReadError, Reason, RecordFault};
use std::alloc::{AllocError, AllocFailed};
use text::fault::TextFault;

impl Reason {
    // 9 to 16, in the order in which the questions are asked. Programs print these numbers, so the
    // definition `number_of` gives each case its own: a rule of the project.
    pub fn number(self) -> u8
        ensures { result ≡ number_of self }
    {
        match self {
            Reason::Unknown => 9,
            Reason::Incomplete => 10,
            Reason::Text(_) => 11,
            Reason::Span => 12,
            Reason::Misplaced => 13,
            Reason::Repeated => 14,
            Reason::TooDeep => 15,
            Reason::Unfinished => 16,
        }
    }

    // The layer that refuses. A method, and no `From`, which would be a second name for it.
    pub fn layer(self) -> Layer
        ensures { result ≡ layer_of self }
    {
        match self {
            Reason::Text(_) => Layer::Text,
            _ => Layer::Record,
        }
    }
}

impl From<TextFault> for Reason {
    ghost from_gives = { λ e r. r ≡ Text e };

    fn from(e: TextFault) -> Reason {
        Reason::Text(e)
    }
}

impl From<RecordFault> for ReadError {
    ghost from_gives = { λ e r. r ≡ Record e };

    fn from(e: RecordFault) -> ReadError {
        ReadError::Record(e)
    }
}

// The library has two errors that say that memory ran out, and each is turned here.
impl From<AllocError> for ReadError {
    ghost from_gives = { λ _ r. r ≡ Memory };

    fn from(_: AllocError) -> ReadError {
        ReadError::Memory
    }
}

impl<T: Drop> From<AllocFailed<T>> for ReadError {
    ghost from_gives = { λ _ r. r ≡ Memory };

    fn from(_: AllocFailed<T>) -> ReadError {
        ReadError::Memory
    }
}

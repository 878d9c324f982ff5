// Why a record is refused, and where.
use text::fault::TextFault;

// The questions that the reader asks of each command, in this order; the last is asked at the end.
#[derive(Clone, Copy)]
pub enum Reason {
    Unknown,
    Incomplete,
    Text(TextFault),
    Span,
    Misplaced,
    Repeated,
    TooDeep,
    Unfinished,
}

// Which part of the product refuses.
#[derive(Clone, Copy, Debug, PartialEq, Eq)]
pub enum Layer {
    Text,
    Record,
}

// `at` is the place in the record, in bytes: of the command that is refused, or just after the last one read.
#[derive(Clone, Copy)]
pub struct RecordFault {
    pub reason: Reason,
    pub at: usize,
}

// What the caller of the reader gets: an error of its own, since memory says nothing of the record,
// and an `Option` of a fault would not say what its absence is.
#[derive(Clone, Copy)]
pub enum ReadError {
    Record(RecordFault),
    Memory,
}

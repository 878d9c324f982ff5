// A part of a source: `len` bytes from `start` on. The numbers are wide enough for any source that a
// record can point into. Two numbers, and no slice: the commands of a record, written out again, are
// the record, and a fault says of numbers that they lie outside.

#[derive(Clone, Copy)]
pub struct Part {
    pub start: u32,
    pub len: u32,
}

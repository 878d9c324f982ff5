// A row that stands by its weight, and among equal weights by its tag. The note takes no part.
#[derive(Clone, Copy)]
pub struct Weighed {
    pub weight: u16,
    pub tag: u8,
    pub note: u8,
}

// The key of such a row, without a note: the order of its fields is the order of the rows.
#[derive(Clone, Copy, PartialEq, Eq, PartialOrd, Ord)]
pub struct Scale {
    pub weight: u16,
    pub tag: u8,
}

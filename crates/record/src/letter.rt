// What the thirteen command bytes stand for.

// What a template refers to by name.
#[derive(Clone, Copy)]
pub enum Reference {
    Filter,
    Test,
    Function,
    Component,
    Include,
}

#[derive(Clone, Copy)]
pub enum Letter {
    Extends,
    // a block that may be reported on, since its span is known
    Block,
    PlainBlock,
    Component,
    Refer(Reference),
    Variable,
    Text,
    Close,
    End,
}

// A command byte, its letter and how many bytes each operand takes, in the order in which they follow.
#[derive(Clone, Copy)]
pub struct Layout {
    pub byte: u8,
    pub letter: Letter,
    pub name: usize,
    pub text: usize,
    pub span: usize,
}

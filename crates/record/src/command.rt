// The commands of a record, with their operands read.
use crate::letter::Reference;
use text::part::Part;
use text::span::Span;

// What a container is.
#[derive(Clone, Copy, PartialEq, Eq)]
pub enum Container {
    Block,
    Component,
}

// What opens a container.
#[derive(Clone, Copy)]
pub enum Opener {
    Block(Span),
    PlainBlock,
    Component,
}

#[derive(Clone, Copy)]
pub enum Command {
    Extends(Part),
    Open(Opener, Part),
    Refer(Reference, Part, Span),
    Variable(Part),
    Text(Part),
    Close,
    End,
}

// The container that a command stands directly in, by the place of its opener in the list of commands.
//
// An enum of its own, and no `Option<usize>`: `Owner::Body` says which container is meant where none
// is open, and `None` would not.
#[derive(Clone, Copy, PartialEq, Eq)]
pub enum Owner {
    Body,
    Container(usize),
}

// A command, the container that it stands directly in, and how many commands stand there before it.
#[derive(Clone, Copy)]
pub struct Entry {
    pub command: Command,
    pub owner: Owner,
    pub place: usize,
}

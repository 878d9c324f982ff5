// What a command is, whatever its operands.
ghost use Rattle.std.specs.Prelude.{◌≡◌};
ghost use Rattle.record.specs.Kinds.{container_of, is_end, opens, part_of, span_of};
ghost use Rattle.record.specs.Openers.{opens_named};

use crate::command::{Command, Container, Opener};
use text::part::Part;
use text::span::Span;

impl Opener {
    // The container that is opened. A method, and no `From`, which would be a second name for it.
    pub fn container(self) -> Container
        ensures { result ≡ container_of self }
    {
        match self {
            Opener::Block(_) | Opener::PlainBlock => Container::Block,
            Opener::Component => Container::Component,
        }
    }
}

impl Command {
    // The part of the source that the command names or places.
    pub fn part(self) -> Option<Part>
        ensures { result ≡ part_of self }
    {
        match self {
            Command::Extends(part)
            | Command::Open(_, part)
            | Command::Refer(_, part, _)
            | Command::Variable(part)
            | Command::Text(part) => Some(part),
            Command::Close | Command::End => None,
        }
    }

    pub fn span(self) -> Option<Span>
        ensures { result ≡ span_of self }
    {
        match self {
            Command::Open(Opener::Block(span), _) | Command::Refer(_, _, span) => Some(span),
            _ => None,
        }
    }

    // Whether the command opens a container of that kind and name. These are parameters of their own:
    // a caller has them apart, and would make a struct of them only to be taken apart.
    pub fn opens(self, source: &[u8], kind: Container, name: &[u8]) -> bool
        ensures { result ≡ opens_named source.now kind name.now (opens self) }
    {
        matches!(self, Command::Open(opener, part)
            if kind == opener.container() && part.bytes(source) == name)
    }

    pub fn is_end(self) -> bool
        ensures { result ≡ is_end self }
    {
        matches!(self, Command::End)
    }
}

// What the reader keeps of the containers that stand open.
ghost use Rattle.std.specs.Prelude.{◌≡◌};
ghost use Rattle.reader.specs.Questions.{in_container};

use record::command::Container;

// An open container: what it is, the place of its opener in the list of commands, and how many
// commands stand directly in it so far.
#[derive(Clone, Copy)]
pub struct Nest {
    pub container: Container,
    pub opener: usize,
    pub commands: usize,
}

// What stands open, as far as a command asks: whether it is the first of all, and else the innermost
// container. Four cases, and none with a `Container` in it: the questions of a place name each once,
// and not a case within a case.
#[derive(Clone, Copy)]
pub enum Stands {
    First,
    Outside,
    InBlock,
    InComponent,
}

impl From<Container> for Stands {
    ghost from_gives = { λ innermost stands. stands ≡ in_container innermost };

    fn from(innermost: Container) -> Stands {
        match innermost {
            Container::Block => Stands::InBlock,
            Container::Component => Stands::InComponent,
        }
    }
}

// How the program prints what a template says.
use record::command::{Command, Entry, Owner};
use std::fmt;
use text::part::Part;

// The text that a part names. Parts of a record that was read are text.
pub(crate) fn text(source: &str, part: Part) -> &str {
    part.text(source.as_bytes()).unwrap_or("?")
}

// A command, with its name or text as the source has it.
#[derive(Clone, Copy)]
pub(crate) struct ShownCommand<'a> {
    pub source: &'a str,
    pub command: Command,
}

impl fmt::Display for ShownCommand<'_> {
    fn fmt<W: fmt::Write>(&self, f: &mut fmt::Formatter<W>) -> fmt::Result {
        let source = self.source;
        match self.command {
            Command::Extends(name) => write!(f, "extends {:?}", text(source, name)),
            Command::Open(opener, name) => {
                write!(f, "{} {:?}", opener.container(), text(source, name))
            }
            Command::Refer(kind, name, span) => {
                let line = span.start_line;
                write!(f, "{kind} {:?} in line {line}", text(source, name))
            }
            Command::Variable(name) => write!(f, "variable {:?}", text(source, name)),
            Command::Text(part) => write!(f, "text {:?}", text(source, part)),
            Command::Close => f.write_str("close"),
            Command::End => f.write_str("end"),
        }
    }
}

// Where an entry stands: its container, and how many commands stand there before it.
#[derive(Clone, Copy)]
pub(crate) struct ShownPlace(pub Entry);

impl fmt::Display for ShownPlace {
    fn fmt<W: fmt::Write>(&self, f: &mut fmt::Formatter<W>) -> fmt::Result {
        let place = self.0.place;
        match self.0.owner {
            Owner::Body => write!(f, "in the body, place {place}"),
            Owner::Container(opener) => write!(f, "in command {opener}, place {place}"),
        }
    }
}

// The number that a catalogue gives a name, if it knows it.
#[derive(Clone, Copy)]
pub(crate) struct ShownNumber(pub Option<u16>);

impl fmt::Display for ShownNumber {
    fn fmt<W: fmt::Write>(&self, f: &mut fmt::Formatter<W>) -> fmt::Result {
        match self.0 {
            Some(number) => write!(f, "{number}"),
            None => f.write_str("unknown"),
        }
    }
}

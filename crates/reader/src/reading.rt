// How a record is read, command by command.
ghost use Rattle.std.specs.Prelude.{◌≡◌, ◌+◌, ◌<◌, ◌≤◌, length, slice_get};
ghost use Rattle.reader.specs.Questions.{Checked, declared, may_open, stands};
ghost use Rattle.reader.specs.Reading.{after, counted, entry};
ghost use Rattle.reader.specs.Rows.{CanOpenOrClose, Finished, Fresh, Moved, Next, Permitted, Stepped, position, standing};

use crate::commands::command;
use crate::nest::{Nest, Stands};
use crate::state::Reader;
use record::command::{Command, Container, Entry, Owner};
use record::fault::{Reason, RecordFault};
use record::table::layout;
use text::lines::line_count;

// How many containers may stand open.
const DEEPEST: usize = 16;

// Whether one of the commands opens a container of that kind and name: apart, as in `Command::opens`.
fn declared(source: &[u8], kind: Container, name: &[u8], before: &[Entry]) -> bool
    ensures { result ≡ declared source.now kind name.now before.now }
{
    before
        .iter()
        .any(|entry| entry.command.opens(source, kind, name))
}

// A component stands only where nothing is open, a block anywhere but in a component.
fn may_open(stands: Stands, kind: Container) -> bool
    ensures { result ≡ may_open stands kind }
{
    matches!(
        (stands, kind),
        (Stands::First | Stands::Outside, _) | (Stands::InBlock, Container::Block)
    )
}

impl<'a> Reader<'a> {
    // The innermost of the open containers.
    fn innermost(&self) -> Option<Nest>
        ensures { result ≡ slice_get (standing self.now).rows 0 }
    {
        self.nests[..self.depth].last().copied()
    }

    // What stands open once `before` was read.
    fn stands(&self, before: &[Entry]) -> Stands
        ensures { result ≡ stands (length before.now) (standing self.now).rows }
    {
        match self.innermost() {
            Some(nest) => Stands::from(nest.container),
            None if before.is_empty() => Stands::First,
            None => Stands::Outside,
        }
    }

    // The command with the container that it stands directly in.
    fn here(&self, command: Command) -> Entry
        ensures { result ≡ entry (standing self.now) command }
    {
        let (owner, place) = match self.innermost() {
            Some(nest) => (Owner::Container(nest.opener), nest.commands),
            None => (Owner::Body, self.body),
        };
        Entry {
            command,
            owner,
            place,
        }
    }

    // Whether the command may stand here, and, where it opens a container, whether its name is new
    // of its kind and fewer than 16 are open; else the reason to refuse it.
    fn admit(&self, command: Command, before: &[Entry]) -> Result<(), Reason>
        ensures { Permitted self.now before.now command result }
    {
        match (command, self.stands(before)) {
            (Command::Extends(_), Stands::First) => Ok(()),
            (Command::Extends(_), _) => Err(Reason::Misplaced),
            (Command::Open(opener, name), stands) => {
                let kind = opener.container();
                if !may_open(stands, kind) {
                    return Err(Reason::Misplaced);
                }
                if declared(self.source, kind, name.bytes(self.source), before) {
                    return Err(Reason::Repeated);
                }
                if self.depth >= DEEPEST {
                    return Err(Reason::TooDeep);
                }
                Ok(())
            }
            (Command::Close, Stands::InBlock | Stands::InComponent) => Ok(()),
            (Command::Close, _) => Err(Reason::Misplaced),
            _ => Ok(()),
        }
    }

    // Whether the command's part is text inside the source, and whether its span is lawful; else
    // the reason to refuse it.
    fn check(&self, command: Command) -> Result<(), Reason>
        ensures { Checked self.now.source.now command result }
    {
        if let Some(part) = command.part() {
            part.text(self.source)?;
        }
        if let Some(span) = command.span() {
            if !span.is_lawful(self.lines, self.source.len()) {
                return Err(Reason::Span);
            }
        }
        Ok(())
    }

    // Counts one command more in the innermost container, or in the body, and moves on to `rest`.
    fn count(&mut self, rest: &'a [u8])
        requires { length rest.now < length self.old.rest.now }
        ensures stands { standing self.new ≡ counted (standing self.old).rows (standing self.old).body }
        ensures depth { self.new.depth ≡ self.old.depth }
        ensures moved { Moved self.old self.new rest.now }
    {
        self.rest = rest;
        // By index: the borrow checker has no rule yet for a loan of this field.
        match self.depth.checked_sub(1) {
            Some(inner) => self.nests[inner].commands += 1,
            None => self.body += 1,
        }
    }

    // Opens or closes what the command at `index` opens or closes.
    fn open_or_close(&mut self, command: Command, index: usize)
        requires { CanOpenOrClose self.old.depth command }
        ensures stands { standing self.new ≡ after index (standing self.old) command }
        ensures moved { Moved self.old self.new self.old.rest.now }
    {
        match command {
            Command::Open(opener, _) => {
                self.nests[self.depth] = Nest {
                    container: opener.container(),
                    opener: index,
                    commands: 0,
                };
                self.depth += 1;
            }
            Command::Close => self.depth -= 1,
            _ => {}
        }
    }

    // The next command, or why it is refused. A refusal leaves the reader as it was.
    fn step(&mut self, before: &[Entry]) -> Result<Entry, Reason>
        ensures { Stepped self.old self.new before.now self.old.rest.now result }
    {
        let [byte, after @ ..] = self.rest else {
            return Err(Reason::Unfinished);
        };
        let Some(layout) = layout(*byte) else {
            return Err(Reason::Unknown);
        };
        let width = layout.name + layout.text + layout.span;
        let Some(rest) = after.get(width..) else {
            return Err(Reason::Incomplete);
        };
        let command = command(layout.letter, after);
        self.check(command)?;
        self.admit(command, before)?;
        let entry = self.here(command);
        self.count(rest);
        self.open_or_close(command, before.len());
        Ok(entry)
    }

    // How far the reader has come, in bytes.
    fn position(&self) -> usize
        ensures { result ≡ position self.now }
    {
        self.bytes.len() - self.rest.len()
    }

    // The next command, or the fault with its place. The entries stay with the caller, which pushes
    // the new one: so reading a command cannot run out of memory, and `before` is passed.
    pub(crate) fn next(&mut self, before: &[Entry]) -> Result<Entry, RecordFault>
        ensures { Next self.old self.new before.now result }
    {
        let at = self.position();
        self.step(before)
            .map_err(|reason| RecordFault { reason, at })
    }

    // After Z: it is to be the last byte, and nothing open.
    pub(crate) fn finish(&self) -> Result<(), RecordFault>
        ensures { Finished self.now result }
    {
        if self.depth > 0 || !self.rest.is_empty() {
            return Err(RecordFault {
                reason: Reason::Unfinished,
                at: self.position(),
            });
        }
        Ok(())
    }

    pub(crate) fn new(source: &'a [u8], bytes: &'a [u8]) -> Reader<'a>
        ensures { Fresh source.now bytes.now result }
    {
        let unused = Nest {
            container: Container::Block,
            opener: 0,
            commands: 0,
        };
        Reader {
            source,
            lines: line_count(source),
            bytes,
            rest: bytes,
            nests: [unused; 16],
            depth: 0,
            body: 0,
        }
    }
}

// A command, from its letter and the bytes of its operands.
ghost use Rattle.std.specs.Prelude.{◌≡◌, ◌+◌, ◌*◌, ◌≤◌, length, drop};
ghost use Rattle.record.specs.Letters.{width};
ghost use Rattle.reader.specs.Operands.{command_of, name_operand, number, span_operand, text_operand};

use record::command::{Command, Opener};
use record::letter::Letter;
use text::column::StoredColumn;
use text::part::Part;
use text::span::Span;

// The number of two bytes, highest byte first.
fn number(bytes: [u8; 2]) -> u32
    ensures { result ≡ number bytes 0 }
{
    u32::from(u16::from_be_bytes(bytes))
}

// A name operand, and what follows it.
fn name_operand(operands: &[u8]) -> (Part, &[u8])
    requires { 3 ≤ length operands.now }
    ensures name { result.0 ≡ name_operand operands.now }
    ensures rest { result.1.now ≡ drop 3 operands.now }
{
    let [high, low, length, rest @ ..] = operands else {
        unreachable!()
    };
    let name = Part {
        start: number([*high, *low]),
        len: u32::from(*length),
    };
    (name, rest)
}

fn text_operand(operands: &[u8]) -> Part
    requires { 4 ≤ length operands.now }
    ensures { result ≡ text_operand operands.now }
{
    let [high, low, length_high, length_low, ..] = operands else {
        unreachable!()
    };
    Part {
        start: number([*high, *low]),
        len: number([*length_high, *length_low]),
    }
}

fn span_operand(operands: &[u8]) -> Span
    requires { 12 ≤ length operands.now }
    ensures { result ≡ span_operand operands.now }
{
    let ([start_line, start_col, end_line, end_col, from, to, ..], _) = operands.as_chunks::<2>()
    else {
        unreachable!()
    };
    Span {
        start_line: number(*start_line),
        start_col: StoredColumn(number(*start_col)),
        end_line: number(*end_line),
        end_col: StoredColumn(number(*end_col)),
        from: number(*from),
        to: number(*to),
    }
}

pub(crate) fn command(letter: Letter, operands: &[u8]) -> Command
    requires { width letter ≤ length operands.now }
    ensures { result ≡ command_of letter operands.now }
{
    match letter {
        Letter::Extends => Command::Extends(name_operand(operands).0),
        Letter::Block => {
            let (name, rest) = name_operand(operands);
            Command::Open(Opener::Block(span_operand(rest)), name)
        }
        Letter::PlainBlock => Command::Open(Opener::PlainBlock, name_operand(operands).0),
        Letter::Component => Command::Open(Opener::Component, name_operand(operands).0),
        Letter::Refer(kind) => {
            let (name, rest) = name_operand(operands);
            Command::Refer(kind, name, span_operand(rest))
        }
        Letter::Variable => Command::Variable(name_operand(operands).0),
        Letter::Text => Command::Text(text_operand(operands)),
        Letter::Close => Command::Close,
        Letter::End => Command::End,
    }
}

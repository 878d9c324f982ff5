// The table of the thirteen commands.
ghost use Rattle.std.specs.Prelude.{◌≡◌, ◌==◌, find};
ghost use Rattle.record.specs.Letters.{Rule, layout_at};

use crate::letter::{Layout, Letter, Reference};

// The published table, row by row: a constant, to be read beside the format.
const LAYOUTS: [Layout; 13] = [
    Layout {
        byte: b'X',
        letter: Letter::Extends,
        name: 3,
        text: 0,
        span: 0,
    },
    Layout {
        byte: b'B',
        letter: Letter::Block,
        name: 3,
        text: 0,
        span: 12,
    },
    Layout {
        byte: b'b',
        letter: Letter::PlainBlock,
        name: 3,
        text: 0,
        span: 0,
    },
    Layout {
        byte: b'C',
        letter: Letter::Component,
        name: 3,
        text: 0,
        span: 0,
    },
    Layout {
        byte: b'F',
        letter: Letter::Refer(Reference::Filter),
        name: 3,
        text: 0,
        span: 12,
    },
    Layout {
        byte: b'T',
        letter: Letter::Refer(Reference::Test),
        name: 3,
        text: 0,
        span: 12,
    },
    Layout {
        byte: b'U',
        letter: Letter::Refer(Reference::Function),
        name: 3,
        text: 0,
        span: 12,
    },
    Layout {
        byte: b'K',
        letter: Letter::Refer(Reference::Component),
        name: 3,
        text: 0,
        span: 12,
    },
    Layout {
        byte: b'I',
        letter: Letter::Refer(Reference::Include),
        name: 3,
        text: 0,
        span: 12,
    },
    Layout {
        byte: b'V',
        letter: Letter::Variable,
        name: 3,
        text: 0,
        span: 0,
    },
    Layout {
        byte: b'W',
        letter: Letter::Text,
        name: 0,
        text: 4,
        span: 0,
    },
    Layout {
        byte: b'E',
        letter: Letter::Close,
        name: 0,
        text: 0,
        span: 0,
    },
    Layout {
        byte: b'Z',
        letter: Letter::End,
        name: 0,
        text: 0,
        span: 0,
    },
];

// The row that has this byte. Apart from `layout`, so that its clause speaks of the table as it is
// written.
fn row_of(byte: u8) -> Option<Layout>
    ensures { result ≡ find (λ row. row.byte == byte) LAYOUTS }
{
    LAYOUTS.iter().copied().find(|row| row.byte == byte)
}

// The layout of the command that the byte stands for.
pub fn layout(byte: u8) -> Option<Layout>
    ensures row { result ≡ layout_at byte }
    ensures rule { Rule }
{
    row_of(byte)
}

// The reader's state.
ghost use Rattle.std.specs.Prelude.{◌≡◌, ◌+◌, ◌≤◌, All, length};
ghost use Rattle.text.specs.Lines.{breaks};
ghost use Rattle.reader.specs.declared.nest.Nest.{Nest};

use crate::nest::Nest;

// A record that is being read over its source.
#[derive(Drop)]
pub struct Reader<'a> {
    pub(crate) source: &'a [u8],
    // how many lines the source has
    pub(crate) lines: usize,
    // the whole record, and what is left of it
    pub(crate) bytes: &'a [u8],
    pub(crate) rest: &'a [u8],
    // Sixteen rows in an array, of which the first `depth` are the open containers, the innermost
    // last: a rule of the project, so that who reads the format finds its sixteen here.
    pub(crate) nests: [Nest; 16],
    pub(crate) depth: usize,
    // how many commands stand directly in the body
    pub(crate) body: usize,
    ghost all_lines: { lines ≡ breaks source.now + 1 },
    ghost room: { depth ≤ 16 },
    // Each command takes a byte at least, so what is read of the record bounds every count, and no
    // count can overflow.
    ghost rest_within: { length rest.now ≤ length bytes.now },
    ghost body_within: { body + length rest.now ≤ length bytes.now },
    ghost nests_within: { All (λ (n : Nest). n.commands + length rest.now ≤ length bytes.now) nests },
}

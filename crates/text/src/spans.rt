// When a span is lawful. Its numbers become places by `as`: no `From` leads from `u32` to `usize`.
ghost use Rattle.std.specs.Prelude.{◌≡◌};
ghost use Rattle.text.specs.Spans.{lawful};

use crate::span::Span;

impl Span {
    // Whether the span is lawful in a source of so many lines and bytes. Only its start line and its bytes are asked.
    pub fn is_lawful(&self, lines: usize, bytes: usize) -> bool
        ensures { result ≡ lawful lines bytes self.now }
    {
        1 <= self.start_line
            && self.start_line as usize <= lines
            && self.from <= self.to
            && self.to as usize <= bytes
    }
}

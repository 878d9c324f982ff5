// A reference of a template: what it refers to, by which name, and where that is written.
use record::letter::Reference;
use text::part::Part;
use text::span::Span;

#[derive(Clone, Copy)]
pub struct Call {
    pub kind: Reference,
    pub name: Part,
    pub span: Span,
}

// How kinds and refusals are printed.
ghost use Rattle.std.specs.Prelude.{Some};
ghost use Rattle.record.specs.Printed.{container_word, fault_words, layer_word, reference_word};

use crate::command::Container;
use crate::fault::{Layer, RecordFault};
use crate::letter::Reference;
use std::fmt;

impl fmt::Display for Container {
    ghost output = { λ container. Some (container_word container) };

    fn fmt<W: fmt::Write>(&self, f: &mut fmt::Formatter<W>) -> fmt::Result {
        f.write_str(match self {
            Container::Block => "block",
            Container::Component => "component",
        })
    }
}

impl fmt::Display for Reference {
    ghost output = { λ reference. Some (reference_word reference) };

    fn fmt<W: fmt::Write>(&self, f: &mut fmt::Formatter<W>) -> fmt::Result {
        f.write_str(match self {
            Reference::Filter => "filter",
            Reference::Test => "test",
            Reference::Function => "function",
            Reference::Component => "component",
            Reference::Include => "include",
        })
    }
}

impl fmt::Display for Layer {
    ghost output = { λ layer. Some (layer_word layer) };

    fn fmt<W: fmt::Write>(&self, f: &mut fmt::Formatter<W>) -> fmt::Result {
        f.write_str(match self {
            Layer::Text => "text",
            Layer::Record => "record",
        })
    }
}

// The number of the refusal, its layer and its position: `16 record at 15`.
impl fmt::Display for RecordFault {
    ghost output = { λ fault. Some (fault_words fault) };

    fn fmt<W: fmt::Write>(&self, f: &mut fmt::Formatter<W>) -> fmt::Result {
        let number = self.reason.number();
        let layer = self.reason.layer();
        write!(f, "{number} {layer} at {}", self.at)
    }
}

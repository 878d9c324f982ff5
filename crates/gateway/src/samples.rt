// The collection that the program works on: a frame, two device profiles, and three records that were damaged on the way.

#[derive(Clone, Copy)]
pub struct Sample {
    pub name: &'static str,
    pub source: &'static str,
    pub record: &'static [u8],
}

// The root: its block `tail` holds the closing byte.
pub const FRAME: Sample = Sample {
    name: "frame.txt",
    source: "<{% block body %}{% endblock %}{% block tail %}>{% endblock %}",
    record: b"W\x00\x00\x00\x01\
          b\x00\x0a\x04\
          E\
          b\x00\x28\x04\
          W\x00\x2f\x00\x01\
          E\
          Z",
};

// A device profile that widens `tail` and calls up to it.
pub const METER: Sample = Sample {
    name: "meter.txt",
    source: "{% extends 'frame.txt' %}{% block body %}{{ reading | hex }}{% endblock %}{% block tail %}#{{ super() }}{% endblock %}",
    record: b"X\x00\x0c\x09\
          B\x00\x22\x04\x00\x01\x00\x22\x00\x01\x00\x26\x00\x22\x00\x26\
          V\x00\x2c\x07\
          F\x00\x36\x03\x00\x01\x00\x36\x00\x01\x00\x39\x00\x36\x00\x39\
          E\
          B\x00\x53\x04\x00\x01\x00\x53\x00\x01\x00\x57\x00\x53\x00\x57\
          W\x00\x5a\x00\x01\
          U\x00\x5e\x05\x00\x01\x00\x5e\x00\x01\x00\x63\x00\x5e\x00\x63\
          E\
          Z",
};

// A profile that forgets to call up: its messages lack their close.
pub const MUTE: Sample = Sample {
    name: "mute.txt",
    source: "{% extends 'frame.txt' %}{% block body %}{{ reading | upper }}{% endblock %}{% block tail %}#{% endblock %}",
    record: b"X\x00\x0c\x09\
          B\x00\x22\x04\x00\x01\x00\x22\x00\x01\x00\x26\x00\x22\x00\x26\
          V\x00\x2c\x07\
          F\x00\x36\x05\x00\x01\x00\x36\x00\x01\x00\x3b\x00\x36\x00\x3b\
          E\
          B\x00\x55\x04\x00\x01\x00\x55\x00\x01\x00\x59\x00\x55\x00\x59\
          W\x00\x5c\x00\x01\
          E\
          Z",
};

// Two containers are opened and one is closed.
pub const TWO_OPEN: Sample = Sample {
    name: "two openings, one close",
    source: "<{% block body %}{% endblock %}{% block tail %}>{% endblock %}",
    record: b"W\x00\x00\x00\x01\
          b\x00\x0a\x04\
          b\x00\x28\x04\
          E\
          Z",
};

// The degree sign has two bytes, and the text begins within it.
pub const CUT_TEXT: Sample = Sample {
    name: "a text that cuts a character",
    source: "°C",
    record: b"W\x00\x01\x00\x02\
          Z",
};

// Lines count from 1.
pub const LINE_ZERO: Sample = Sample {
    name: "a span at line 0",
    source: "{{ v | hex }}",
    record: b"F\x00\x07\x03\x00\x00\x00\x07\x00\x00\x00\x0a\x00\x07\x00\x0a\
          Z",
};

use catalogue::Kind;

// A built-in name: its kind, the name and its number.
//
// A tuple struct, and not the type `NumberedName` of the crate `catalogue`: with named fields a row
// of the table would take five lines in place of one.
#[derive(Clone, Copy)]
pub struct Known(pub Kind, pub &'static str, pub u16);

// Filters, then tests, then functions, under one running number.
//
// A constant array, looked through from the front: it is the published table, to be read beside the
// document, and a map would have to be made, with memory, before the first question.
pub(crate) const BUILT_IN: [Known; 56] = [
    Known(Kind::Filter, "safe", 0),
    Known(Kind::Filter, "default", 1),
    Known(Kind::Filter, "upper", 2),
    Known(Kind::Filter, "lower", 3),
    Known(Kind::Filter, "wordcount", 4),
    Known(Kind::Filter, "escape", 5),
    Known(Kind::Filter, "escape_html", 6),
    Known(Kind::Filter, "escape_xml", 7),
    Known(Kind::Filter, "newlines_to_br", 8),
    Known(Kind::Filter, "pluralize", 9),
    Known(Kind::Filter, "trim", 10),
    Known(Kind::Filter, "trim_start", 11),
    Known(Kind::Filter, "trim_end", 12),
    Known(Kind::Filter, "replace", 13),
    Known(Kind::Filter, "capitalize", 14),
    Known(Kind::Filter, "title", 15),
    Known(Kind::Filter, "truncate", 16),
    Known(Kind::Filter, "indent", 17),
    Known(Kind::Filter, "str", 18),
    Known(Kind::Filter, "int", 19),
    Known(Kind::Filter, "float", 20),
    Known(Kind::Filter, "length", 21),
    Known(Kind::Filter, "reverse", 22),
    Known(Kind::Filter, "split", 23),
    Known(Kind::Filter, "abs", 24),
    Known(Kind::Filter, "round", 25),
    Known(Kind::Filter, "first", 26),
    Known(Kind::Filter, "last", 27),
    Known(Kind::Filter, "nth", 28),
    Known(Kind::Filter, "join", 29),
    Known(Kind::Filter, "sort", 30),
    Known(Kind::Filter, "unique", 31),
    Known(Kind::Filter, "get", 32),
    Known(Kind::Filter, "values", 33),
    Known(Kind::Filter, "keys", 34),
    Known(Kind::Filter, "pairs", 35),
    Known(Kind::Filter, "group_by", 36),
    Known(Kind::Test, "string", 37),
    Known(Kind::Test, "number", 38),
    Known(Kind::Test, "map", 39),
    Known(Kind::Test, "bool", 40),
    Known(Kind::Test, "array", 41),
    Known(Kind::Test, "integer", 42),
    Known(Kind::Test, "float", 43),
    Known(Kind::Test, "none", 44),
    Known(Kind::Test, "iterable", 45),
    Known(Kind::Test, "defined", 46),
    Known(Kind::Test, "undefined", 47),
    Known(Kind::Test, "odd", 48),
    Known(Kind::Test, "even", 49),
    Known(Kind::Test, "divisible_by", 50),
    Known(Kind::Test, "starting_with", 51),
    Known(Kind::Test, "ending_with", 52),
    Known(Kind::Test, "containing", 53),
    Known(Kind::Function, "range", 54),
    Known(Kind::Function, "throw", 55),
];

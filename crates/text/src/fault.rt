// What can be wrong with a text.
ghost use Rattle.std.specs.Prelude.{◌≡◌};
ghost use Rattle.text.specs.declared.fault.TextFault.TheVariants.{NotUtf8};

use std::str::Utf8Error;

#[derive(Clone, Copy)]
pub enum TextFault {
    // a name of more than 255 bytes
    TooLong,
    // a part that does not lie inside its source
    Outside,
    // bytes that are not UTF-8
    NotUtf8,
}

// The fault is the same wherever the bytes go wrong.
impl From<Utf8Error> for TextFault {
    ghost from_gives = { λ _ fault. fault ≡ NotUtf8 };

    fn from(_: Utf8Error) -> TextFault {
        TextFault::NotUtf8
    }
}

ghost use Rattle.std.specs.Prelude.{◌≡◌, ℕ};
ghost use Rattle.catalogue.specs.Meaning.{Meaning, Registers};

use crate::kinds::{Kind, Refusal};

// A catalogue means a map from kind and name to a number, the names that it holds itself, and the
// places it has left.
//
// Asking tells the meaning and alters nothing. Only registering alters it.
//
// Kind and name, and the number with them, stay parameters of their own: a caller writes the kind
// and reads the name, so a struct of them would be made at each call only to be taken apart in it.
pub trait Catalogue {
    // The longest name that the catalogue takes, in bytes.
    const LONGEST: usize;

    // The same number, as contracts name it. Each catalogue writes it and `longest_name` itself: with
    // a ghost member tied to the constant, the checker refuses an `impl` with a lifetime parameter.
    ghost longest: { ℕ };

    ghost means: { Self → Meaning };

    // `LONGEST`, with a contract.
    fn longest_name() -> usize
        ensures { result ≡ longest };

    // The number of a name.
    fn number(&self, kind: Kind, name: &[u8]) -> Option<u16>
        ensures { result ≡ (means self.now).map kind name.now };

    // Whether the catalogue holds the name itself.
    fn holds(&self, kind: Kind, name: &[u8]) -> bool
        ensures { result ≡ (means self.now).held kind name.now };

    // For how many new names there is a place.
    fn places(&self) -> usize
        ensures { result ≡ (means self.now).places };

    // Sets the number of a name, of whatever bytes, or refuses and alters nothing.
    fn register(&mut self, kind: Kind, name: &[u8], number: u16) -> Result<(), Refusal>
        ensures { Registers longest (means self.old) kind name.now number result (means self.new) };
}

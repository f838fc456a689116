//! A text to look for, borrowed from a question line. Contracts see its bytes.
ghost use Rattle.std.specs.Prelude.{◌≡◌, nat_eq};
ghost use Rattle.std.specs.Cmp.Lexicographic.{pointwise};
ghost use Rattle.std.specs.Cmp.Rules.{comparing};
ghost use Rattle.std.proofs.Common.{rules};

use std::marker::Model;

/// A text to look for, which contracts see as a list of bytes.
#[derive(Debug, Drop)]
pub struct FindText<'a> {
    text: &'a [u8],
}

impl<'a> Model for FindText<'a> {
    ghost use Rattle.std.specs.Prelude.{List, ℕ};

    ghost Value = { List ℕ };

    ghost view = { λ a. a.text.now };
}

impl<'a> FindText<'a> {
    /// These bytes.
    pub fn new(text: &'a [u8]) -> FindText<'a>
        ensures { result ≡ text.now }
    {
        FindText { text }
    }

    /// The bytes.
    pub fn bytes(&self) -> &'a [u8]
        ensures { result.now ≡ self.now }
    {
        self.text
    }
}

impl<'a> PartialEq for FindText<'a> {
    ghost eq = { pointwise nat_eq };

    ghost laws = { Prim.search (comparing, rules) };

    fn eq(&self, other: &FindText<'a>) -> bool {
        self.text == other.text
    }
}

impl<'a> Eq for FindText<'a> {
    ghost laws = { Prim.search (comparing, rules) };
}

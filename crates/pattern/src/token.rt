// The tokens into which a pattern's bytes are cut: its signs and its tests.
ghost use Rattle.std.specs.Prelude.{◌≡◌};

use crate::fault::Misread;

#[derive(Clone, Copy, PartialEq, Default)]
pub enum Kind {
    Or,
    Star,
    Plus,
    Opt,
    Open,
    Close,
    OpenTag,
    CloseTag,
    // the number by which the alphabet keeps the test, or why the notation does not read one
    Test(Result<u32, Misread>),
    // not the absence of a token, since a fault at the end is told by an offset, as at every token
    #[default]
    End,
}

impl Kind {
    ghost use Rattle.pattern.specs.Descent.{is_unit};

    // Whether a unit begins here.
    pub(crate) fn is_unit(self) -> bool
        ensures { result ≡ is_unit self }
    {
        matches!(self, Kind::Test(_) | Kind::Open | Kind::OpenTag)
    }
}

// A token, and the offset of its first byte.
#[derive(Clone, Copy, Default)]
pub struct Token {
    pub kind: Kind,
    pub offset: usize,
}

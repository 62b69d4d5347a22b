// Document 01's kinds of nodes, and the bytes that stand for them.
ghost use Rattle.std.specs.Prelude.{◌≡◌, ◌≤◌, ◌↔◌, IsTrue};
ghost use Rattle.expression.specs.Kinds.{byte_of, Decodes};

#[derive(Clone, Copy, Debug, PartialEq, Eq)]
pub enum Kind {
    Deadlock,
    Action,
    Sum,
    Product,
    Star,
}

// A byte that stands for no kind.
#[derive(Clone, Copy, Debug, PartialEq, Eq)]
pub struct UnknownKind(pub u8);

impl Kind {
    // Whether nodes of this kind have a left and a right operand.
    pub fn has_operands(self) -> bool
        ensures { IsTrue result ↔ (2 ≤ byte_of self) }
    {
        matches!(self, Kind::Sum | Kind::Product | Kind::Star)
    }
}

impl TryFrom<u8> for Kind {
    type Error = UnknownKind;

    ghost try_from_gives = { Decodes };

    fn try_from(byte: u8) -> Result<Self, UnknownKind> {
        match byte {
            0 => Ok(Kind::Deadlock),
            1 => Ok(Kind::Action),
            2 => Ok(Kind::Sum),
            3 => Ok(Kind::Product),
            4 => Ok(Kind::Star),
            _ => Err(UnknownKind(byte)),
        }
    }
}

impl From<Kind> for u8 {
    ghost from_gives = { λ kind byte. byte ≡ byte_of kind };

    fn from(kind: Kind) -> u8 {
        kind as u8
    }
}

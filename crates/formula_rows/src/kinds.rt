// The kinds of rows: what a row's first byte names.
ghost use Rattle.std.specs.Prelude.{◌≡◌, eqb, ltb};
ghost use Rattle.formula_rows.specs.Kinds.{kind_number, KindOf};

use crate::rows::Row;

// Policies, and the actions from `Communicates` on.
#[derive(Clone, Copy, Debug, PartialEq, Eq)]
pub enum Kind {
    Predicate = 0,
    Owns = 1,
    Says = 2,
    And = 3,
    ForAll = 4,
    Implies = 5,
    EachUse = 6,
    Once = 7,
    Communicates = 8,
    Creates = 9,
    UserAction = 10,
}

// A byte that names no kind.
#[derive(Clone, Copy, Debug, PartialEq, Eq)]
pub struct UnknownKind(pub u8);

impl TryFrom<u8> for Kind {
    type Error = UnknownKind;

    ghost try_from_gives = { KindOf };

    fn try_from(code: u8) -> Result<Kind, UnknownKind> {
        match code {
            0 => Ok(Kind::Predicate),
            1 => Ok(Kind::Owns),
            2 => Ok(Kind::Says),
            3 => Ok(Kind::And),
            4 => Ok(Kind::ForAll),
            5 => Ok(Kind::Implies),
            6 => Ok(Kind::EachUse),
            7 => Ok(Kind::Once),
            8 => Ok(Kind::Communicates),
            9 => Ok(Kind::Creates),
            10 => Ok(Kind::UserAction),
            _ => Err(UnknownKind(code)),
        }
    }
}

impl Row {
    // Is this its kind?
    pub fn is(self, kind: Kind) -> bool
        ensures { result ≡ eqb self.kind (kind_number kind) }
    {
        self.kind == kind as u8
    }

    // Is it a policy's, where its byte names a kind?
    pub fn is_policy(self) -> bool
        ensures { result ≡ ltb self.kind 8 }
    {
        self.kind < Kind::Communicates as u8
    }
}

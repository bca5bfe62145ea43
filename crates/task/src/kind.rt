//! The kinds of a task's records.
ghost use Rattle.std.specs.Prelude.{◌≡◌};
ghost use Rattle.task.specs.Kinds.{kind_at};

use records::{Cut, RecordFault};

/// What a record of a task is, by the number in its head.
#[derive(Clone, Copy, Debug, PartialEq, Eq)]
pub(crate) enum Kind {
    Header,
    Node,
    Operator,
    Goal,
}

impl TryFrom<Cut<'_>> for Kind {
    type Error = RecordFault;

    ghost try_from_gives = { λ c r. r ≡ kind_at c.at c.kind };

    fn try_from(cut: Cut<'_>) -> Result<Kind, RecordFault> {
        match cut.kind {
            1 => Ok(Kind::Header),
            2 => Ok(Kind::Node),
            3 => Ok(Kind::Operator),
            4 => Ok(Kind::Goal),
            _ => Err(RecordFault::WrongKind { at: cut.at }),
        }
    }
}

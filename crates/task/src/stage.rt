//! The order of the records of a task's paper.
ghost use Rattle.std.specs.Prelude.{◌≡◌};
ghost use Rattle.records.specs.Cuts.{split};
ghost use Rattle.task.specs.Stages.{stage_step, records_in};

use crate::kind::Kind;
use records::{Cut, LONGEST, RecordFault, Records};

/// Which records may come next.
#[derive(Clone, Copy, Debug, PartialEq, Eq)]
pub enum Stage {
    Header,
    Nodes,
    Operators,
    Done,
}

impl Stage {
    /// The stage after this record, whose body has the length that suits its kind.
    fn after(self, cut: Cut<'_>) -> Result<Stage, RecordFault>
        ensures { result ≡ stage_step cut.entry.at (split cut.entry.kind cut.entry.body.now cut.entry.rest.now) self }
    {
        let at = cut.at;
        let size = cut.body.len();
        let kind = Kind::try_from(cut)?;
        let next = match (self, kind) {
            (Stage::Header, Kind::Header) | (Stage::Nodes, Kind::Node) => Stage::Nodes,
            (Stage::Nodes | Stage::Operators, Kind::Operator) => Stage::Operators,
            (Stage::Nodes | Stage::Operators, Kind::Goal) => Stage::Done,
            _ => return Err(RecordFault::WrongKind { at }),
        };
        match (kind, size) {
            (Kind::Header, 9) | (Kind::Node, 5) | (Kind::Operator, 4 | 12) | (Kind::Goal, 2) => {
                Ok(next)
            }
            _ => Err(RecordFault::WrongLength { at }),
        }
    }
}

/// The first pass: the paper is whole records, in order.
pub(crate) fn check_records(paper: &[u8]) -> Result<(), RecordFault>
    ensures { result ≡ records_in paper.now }
{
    if paper.len() > LONGEST {
        return Err(RecordFault::TooLong);
    }
    let mut stage = Stage::Header;
    for record in Records::of(paper) {
        stage = stage.after(record?)?;
    }
    match stage {
        Stage::Done => Ok(()),
        _ => Err(RecordFault::CutShort { at: paper.len() }),
    }
}

//! What the bodies of a task's records say.
ghost use Rattle.std.specs.Prelude.{◌≡◌, ◌≤◌};
ghost use Rattle.task.specs.Entries.{header_in, operator_in, number_in, written_in};

use formulas::node::Node;
use records::{Cut, RecordFault};

/// How many variables there are, and the state at the start.
#[derive(Clone, Copy, Debug, PartialEq, Eq)]
pub struct Header {
    pub n: u8,
    pub start: u64,
}

/// An action: a condition, what it changes, and what it costs.
#[derive(Clone, Copy, Debug, PartialEq, Eq)]
pub struct Operator {
    pub precondition: u16,
    pub effect: u16,
    pub minutes: u32,
    pub crew: u32,
}

impl TryFrom<Cut<'_>> for Header {
    type Error = RecordFault;

    ghost try_from_gives = { λ c r. r ≡ header_in c.at c.body.now };

    fn try_from(cut: Cut<'_>) -> Result<Header, RecordFault> {
        let [n, s0, s1, s2, s3, s4, s5, s6, s7] = cut.body else {
            return Err(RecordFault::WrongLength { at: cut.at });
        };
        let start = u64::from_le_bytes([*s0, *s1, *s2, *s3, *s4, *s5, *s6, *s7]);
        Ok(Header { n: *n, start })
    }
}

/// The node that a body writes, or none where its tag or an unused operand is wrong.
pub(crate) fn node_in(cut: Cut<'_>) -> Result<Option<Node>, RecordFault>
    ensures { result ≡ written_in cut.entry.at cut.entry.body.now }
{
    let Ok(entry) = <[u8; 5]>::try_from(cut.body) else {
        return Err(RecordFault::WrongLength { at: cut.at });
    };
    Ok(Node::try_from(entry).ok())
}

/// Costs that are left out are 1.
impl TryFrom<Cut<'_>> for Operator {
    type Error = RecordFault;

    ghost try_from_gives = { λ c r. r ≡ operator_in c.at c.body.now };

    fn try_from(cut: Cut<'_>) -> Result<Operator, RecordFault> {
        match cut.body {
            [p0, p1, e0, e1] => Ok(Operator {
                precondition: u16::from_le_bytes([*p0, *p1]),
                effect: u16::from_le_bytes([*e0, *e1]),
                minutes: 1,
                crew: 1,
            }),
            [p0, p1, e0, e1, m0, m1, m2, m3, c0, c1, c2, c3] => Ok(Operator {
                precondition: u16::from_le_bytes([*p0, *p1]),
                effect: u16::from_le_bytes([*e0, *e1]),
                minutes: u32::from_le_bytes([*m0, *m1, *m2, *m3]),
                crew: u32::from_le_bytes([*c0, *c1, *c2, *c3]),
            }),
            _ => Err(RecordFault::WrongLength { at: cut.at }),
        }
    }
}

/// The number of the goal's node.
pub(crate) fn number_in(cut: Cut<'_>) -> Result<u16, RecordFault>
    ensures { result ≡ number_in cut.entry.at cut.entry.body.now }
{
    let Ok(number) = <[u8; 2]>::try_from(cut.body) else {
        return Err(RecordFault::WrongLength { at: cut.at });
    };
    Ok(u16::from_le_bytes(number))
}

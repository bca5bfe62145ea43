//! The nodes that formulas and effects are written in.
ghost use Rattle.std.specs.Prelude.{◌≡◌};
ghost use Rattle.formulas.specs.Sorts.{formula_node};
ghost use Rattle.formulas.specs.Written.{written};

/// A formula or an effect over variables, and over other nodes by their numbers.
// Kept: by numbers and not by `Box`, since papers write them so, and a set's nodes are read where they lie, with no heap.
#[derive(Clone, Copy)]
pub enum Node {
    False,
    True,
    Variable(u8),
    Not(u16),
    And(u16, u16),
    Or(u16, u16),
    Empty,
    Set(u8),
    Clear(u8),
    Both(u16, u16),
    When(u16, u16),
}

/// Five bytes that write no node.
#[derive(Clone, Copy, PartialEq, Eq, Debug)]
pub struct NoNode;

/// The node that an entry writes: a tag, and two operands; an unused operand is 0.
impl TryFrom<[u8; 5]> for Node {
    type Error = NoNode;

    ghost try_from_gives = { λ entry r. r ≡ written entry };

    // Kept: tried as one match on the five bytes, with which a formula's longest proof (oracle/bench) took twice as long.
    fn try_from([tag, a0, a1, b0, b1]: [u8; 5]) -> Result<Node, NoNode> {
        let a = u16::from_le_bytes([a0, a1]);
        let b = u16::from_le_bytes([b0, b1]);
        match (tag, a, b) {
            (0, 0, 0) => Ok(Node::False),
            (1, 0, 0) => Ok(Node::True),
            (2, 0..256, 0) => Ok(Node::Variable(a as u8)),
            (3, _, 0) => Ok(Node::Not(a)),
            (4, _, _) => Ok(Node::And(a, b)),
            (5, _, _) => Ok(Node::Or(a, b)),
            (6, 0, 0) => Ok(Node::Empty),
            (7, 0..256, 0) => Ok(Node::Set(a as u8)),
            (8, 0..256, 0) => Ok(Node::Clear(a as u8)),
            (9, _, _) => Ok(Node::Both(a, b)),
            (10, _, _) => Ok(Node::When(a, b)),
            _ => Err(NoNode),
        }
    }
}

impl Node {
    /// Whether the node is a formula; every other is an effect.
    pub fn is_formula(self) -> bool
        ensures { result ≡ formula_node self }
    {
        matches!(
            self,
            Node::False
                | Node::True
                | Node::Variable(_)
                | Node::Not(_)
                | Node::And(_, _)
                | Node::Or(_, _)
        )
    }
}

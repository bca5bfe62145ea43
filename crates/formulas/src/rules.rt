//! The rules on operands and sorts that each node of a table keeps.
ghost use Rattle.std.specs.Prelude.{◌≡◌};
ghost use Rattle.formulas.specs.Lawful.{is_formula, is_effect, lawful};

use crate::node::Node;

/// Whether there is a node of this number, and it is a formula.
pub fn is_formula(nodes: &[Node], number: u16) -> bool
    ensures { result ≡ is_formula nodes.now number }
{
    nodes
        .get(usize::from(number))
        .is_some_and(|node| node.is_formula())
}

/// Whether there is a node of this number, and it is an effect.
pub fn is_effect(nodes: &[Node], number: u16) -> bool
    ensures { result ≡ is_effect nodes.now number }
{
    nodes
        .get(usize::from(number))
        .is_some_and(|node| !node.is_formula())
}

/// Whether the node may follow these nodes, over variables below `n`.
pub fn may_follow(n: u8, nodes: &[Node], node: Node) -> bool
    ensures { result ≡ lawful n nodes.now node }
{
    match node {
        Node::False | Node::True | Node::Empty => true,
        Node::Variable(v) | Node::Set(v) | Node::Clear(v) => v < n,
        Node::Not(a) => is_formula(nodes, a),
        Node::And(a, b) | Node::Or(a, b) => is_formula(nodes, a) && is_formula(nodes, b),
        Node::Both(a, b) => is_effect(nodes, a) && is_effect(nodes, b),
        Node::When(a, b) => is_formula(nodes, a) && is_effect(nodes, b),
    }
}

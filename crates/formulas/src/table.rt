//! Tables of nodes, each naming only nodes before it, and the value of a formula.
ghost use Rattle.std.specs.Prelude.{◌≡◌, ℕ, List, slice_index_or};
ghost use Rattle.logic.specs.Partial.{truth, In};
ghost use Rattle.logic.specs.States.{Allows};
ghost use Rattle.logic.specs.Views.{partial};
ghost use Rattle.formulas.specs.declared.node.Node.{Node as NodeOf};
ghost use Rattle.formulas.specs.declared.node.Node.TheVariants.{False as NoNode};
ghost use Rattle.formulas.specs.Decode.{Ordered, formula_at};
ghost use Rattle.formulas.specs.Formula.{kleene, holds};
ghost use Rattle.formulas.specs.Results.{state};

use crate::node::Node;
use logic::cube::Cube;
use logic::truth::Truth;

/// A table of nodes over variables below a width, wherever it lies.
pub trait NodeTable {
    ghost wide: { Self → ℕ };

    ghost nodes: { Self → List NodeOf };

    ghost ordered: { (s : Self) → Ordered (wide s) (nodes s) };

    /// The node of a number; where there is none, the formula that is false.
    fn node(&self, at: usize) -> Node
        ensures { result ≡ slice_index_or (nodes self.now) at NoNode };
}

// Kept: table, number and cube as parameters, since each step changes the number alone and a struct of them would be made anew.
/// The truth of the formula at the node `at` in the cube; the node's number falls.
fn evaluate<N: NodeTable>(nodes: &N, at: usize, cube: &Cube) -> Truth
    ensures { result ≡ kleene (truth (partial cube.now)) (formula_at (N.NodeTable.nodes nodes.now) at) }
{
    match nodes.node(at) {
        Node::True => Truth::True,
        Node::Variable(v) => cube.truth_of(v),
        Node::Not(a) => evaluate(nodes, a as usize, cube).not(),
        Node::And(a, b) => evaluate(nodes, a as usize, cube).and(evaluate(nodes, b as usize, cube)),
        Node::Or(a, b) => evaluate(nodes, a as usize, cube).or(evaluate(nodes, b as usize, cube)),
        _ => Truth::False,
    }
}

/// The truth of the formula at the node `at` in the cube: what it says is so in each of the cube's states.
pub fn value<N: NodeTable>(nodes: &N, at: usize, cube: &Cube) -> Truth
    ensures truth { result ≡ kleene (truth (partial cube.now)) (formula_at (N.NodeTable.nodes nodes.now) at) }
    ensures sound { (s : ℕ) → In (partial cube.now) s → Allows result (holds (state s) (formula_at (N.NodeTable.nodes nodes.now) at)) }
{
    evaluate(nodes, at, cube)
}

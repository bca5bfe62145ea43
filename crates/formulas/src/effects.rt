//! What an effect makes of a cube.
ghost use Rattle.std.specs.Prelude.{◌≡◌, ℕ};
ghost use Rattle.logic.specs.Partial.{truth, single, In};
ghost use Rattle.logic.specs.Views.{partial};
ghost use Rattle.formulas.specs.Changes.{Makes};
ghost use Rattle.formulas.specs.Decode.{effect_at};
ghost use Rattle.formulas.specs.Results.{successor, result as resulting};

use crate::node::Node;
use crate::table::{NodeTable, value};
use logic::change::Change;
use logic::cube::Cube;
use logic::truth::Truth;

/// What the effect at the node `at` sets and clears in the cube; the node's number falls.
fn change_at<N: NodeTable>(nodes: &N, at: usize, cube: &Cube) -> Change
    ensures { Makes (truth (partial cube.now)) (effect_at (N.NodeTable.nodes nodes.now) at) result }
{
    match nodes.node(at) {
        Node::Set(v) => Change::set(v),
        Node::Clear(v) => Change::clear(v),
        Node::Both(a, b) => {
            change_at(nodes, a as usize, cube).or(change_at(nodes, b as usize, cube))
        }
        Node::When(f, e) => match value(nodes, f as usize, cube) {
            Truth::False => Change::none(),
            Truth::True => change_at(nodes, e as usize, cube),
            Truth::Open => change_at(nodes, e as usize, cube).perhaps(),
        },
        _ => Change::none(),
    }
}

/// The cube after the effect at the node `at`: it has the state after each state of the cube,
/// and of a single state it is the state after that.
pub fn successor<N: NodeTable>(nodes: &N, at: usize, cube: &Cube) -> Cube
    ensures value { partial result ≡ successor (effect_at (N.NodeTable.nodes nodes.now) at) (partial cube.now) }
    ensures states { (s : ℕ) → In (partial cube.now) s → In (partial result) (resulting (partial cube.now).width (effect_at (N.NodeTable.nodes nodes.now) at) s) }
    ensures total { (s : ℕ) → partial cube.now ≡ single (N.NodeTable.wide nodes.now) s → partial result ≡ single (N.NodeTable.wide nodes.now) (resulting (N.NodeTable.wide nodes.now) (effect_at (N.NodeTable.nodes nodes.now) at) s) }
{
    cube.apply(&change_at(nodes, at, cube))
}

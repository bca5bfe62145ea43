//! A planning task, with room for the largest.
ghost use Rattle.std.specs.Prelude.{◌≡◌, ℕ, ◌^◌, ◌<◌, ◌≤◌, true, vec_len, vec_capacity};
ghost use Rattle.formulas.specs.Lawful.{Lawful};
ghost use Rattle.formulas.specs.Marks.{Marks};
ghost use Rattle.formulas.specs.Names.{Once};
ghost use Rattle.task.specs.Values.{value, names};
ghost use Rattle.task.specs.Sound.{Rooted, aims};

use crate::entries::Operator;
use formulas::names::Names;
use formulas::node::Node;

pub mod reading;
pub mod running;

/// Variables, the state at the start, nodes, operators, the number of the goal's node, if there is one,
/// and a mark for each node that is named.
#[derive(Drop)]
pub struct Task {
    n: u8,
    start: u64,
    nodes: Vec<Node>,
    operators: Vec<Operator>,
    goal: Option<u16>,
    // A box, so that moving a task moves no kibibyte of marks.
    named: Box<Names>,
    ghost node_room: { 1024 ≤ vec_capacity nodes },
    ghost operator_room: { 128 ≤ vec_capacity operators },
    ghost width: { n ≤ 64 },
    ghost begins: { start < 2 ^ n },
    ghost few_nodes: { vec_len nodes ≤ 1024 },
    ghost few_operators: { vec_len operators ≤ 128 },
    ghost ruled: { Lawful n nodes.items },
    ghost rooted: { Rooted nodes.items operators.items },
    ghost aimed: { aims nodes.items goal ≡ true },
    ghost marked: { Marks named.value.marks (names (value n start nodes.items operators.items goal)) },
    ghost once: { Once (names (value n start nodes.items operators.items goal)) },
}

//! Running a task: its states, its operators in a state, and its goal.
ghost use Rattle.std.specs.Prelude.{◌≡◌, length};
ghost use Rattle.std.specs.List.{slice_get};
ghost use Rattle.logic.specs.Partial.{whole};
ghost use Rattle.logic.specs.Views.{partial};
ghost use Rattle.planning.specs.Model.{WellFormed};
ghost use Rattle.task.specs.Held.{value_of, model, wide_of, nodes_of, ordered_of};
ghost use Rattle.task.specs.Meaning.{stepped, arrived};
ghost use Rattle.task.specs.Sound.{Sound};

use crate::entries::Operator;
use crate::place::Task;
use crate::stepping::{Arrival, StepFault};
use formulas::effects::successor;
use formulas::node::Node;
use formulas::table::{NodeTable, value};
use logic::cube::Cube;

impl NodeTable for Task {
    ghost wide = { wide_of };

    ghost nodes = { nodes_of };

    ghost ordered = { ordered_of };

    fn node(&self, at: usize) -> Node {
        // Copied before the default stands in, since a borrowed default costs each node of each formula more.
        let node = self.nodes.get(at).copied();
        node.unwrap_or(Node::False)
    }
}

impl Task {
    /// How many variables there are.
    pub fn variables(&self) -> u8
        ensures { result ≡ (model self.now).variables }
    {
        self.n
    }

    /// The state at the start.
    pub fn start(&self) -> u64
        ensures { result ≡ (model self.now).start }
    {
        self.start
    }

    /// How many nodes there are.
    pub fn node_count(&self) -> usize
        ensures { result ≡ length (nodes_of self.now) }
    {
        let nodes: &[Node] = &self.nodes;
        nodes.len()
    }

    /// How many operators there are. Every task keeps the rules, and its planning task is well formed.
    pub fn operator_count(&self) -> usize
        ensures count { result ≡ length (model self.now).operators }
        ensures rules { Sound (value_of self.now) }
        ensures formed { WellFormed (model self.now) }
    {
        self.operators.len()
    }

    /// The operator of a number, if there is one.
    pub fn operator(&self, number: usize) -> Option<Operator>
        ensures { result ≡ slice_get (value_of self.now).operators number }
    {
        self.operators.get(number).copied()
    }

    /// The goal's node, if there is one; no goal is one that never holds.
    pub fn goal(&self) -> Option<u16>
        ensures { result ≡ (value_of self.now).goal }
    {
        self.goal
    }

    /// All its states.
    pub fn states(&self) -> Cube
        ensures { partial result ≡ whole (model self.now).variables }
    {
        Cube::all(self.n).unwrap()
    }

    /// Tries an operator in a state.
    pub fn step(&self, number: u16, state: u64) -> Result<Arrival, StepFault>
        ensures { result ≡ stepped (model self.now) state number }
    {
        let operator = self.operator(number as usize).ok_or(StepFault::Missing)?;
        let cube = self.states().at(state);
        if !value(self, operator.precondition as usize, &cube).is_true() {
            return Err(StepFault::Inapplicable);
        }
        Ok(Arrival {
            state: successor(self, operator.effect as usize, &cube).values(),
            minutes: operator.minutes,
            crew: operator.crew,
        })
    }

    /// Whether the goal holds in a state.
    pub fn at_goal(&self, state: u64) -> bool
        ensures { result ≡ arrived (model self.now) state }
    {
        // Kept: with `is_some_and` the proof, which goes by the arms, was tried and did not close.
        match self.goal {
            None => false,
            Some(goal) => value(self, goal as usize, &self.states().at(state)).is_true(),
        }
    }
}

//! Reading a task from its paper.
ghost use Rattle.std.specs.Prelude.{◌≡◌, IfOk, Err};
ghost use Rattle.task.specs.Values.{blank};
ghost use Rattle.task.specs.declared.faults.TaskFault.TheVariants.{Record};
ghost use Rattle.task.specs.Held.{value_of};
ghost use Rattle.task.specs.Sound.{Sound};
ghost use Rattle.task.specs.Stages.{records_in};
ghost use Rattle.task.specs.Contents.{begun, node_added, operator_added, goal_added, content_of, contents_in, task_in, verdict, held, Agrees};

use crate::entries::{Header, Operator, node_in, number_in};
use crate::faults::TaskFault;
use crate::kind::Kind;
use crate::place::Task;
use crate::stage::check_records;
use formulas::names::Names;
use formulas::node::Node;
use formulas::rules::{is_effect, is_formula, may_follow};
use logic::state::is_state;
use records::{Cut, RecordFault, Records};
use std::alloc::{AllocError, Global};

/// The most nodes and the most operators of a task.
const NODES: usize = 1024;

const OPERATORS: usize = 128;

impl Task {
    /// The blank task: no variables, no operators, and a goal that is false. It has room for any other.
    pub fn new(heap: Global) -> Result<Task, AllocError>
        ensures { IfOk result (λ t. value_of t ≡ blank) }
    {
        let nodes = Vec::with_capacity(heap, NODES)?;
        let operators = Vec::with_capacity(heap, OPERATORS)?;
        let named = Box::new(heap, Names::none())?;
        Ok(Task {
            n: 0,
            start: 0,
            nodes,
            operators,
            goal: None,
            named,
        })
    }

    /// Makes the task blank.
    fn clear(&mut self)
        ensures { value_of self.new ≡ blank }
    {
        self.n = 0;
        self.start = 0;
        self.nodes.clear();
        self.operators.clear();
        self.goal = None;
        *self.named = Names::none();
    }

    /// Begins the task that a header announces.
    fn begin(&mut self, header: Header, at: usize) -> Result<(), TaskFault>
        ensures { Agrees (begun at header) (value_of self.new) result }
    {
        if header.n == 0 || header.n > 64 || !is_state(header.n, header.start) {
            return Err(TaskFault::Header { at });
        }
        self.clear();
        self.n = header.n;
        self.start = header.start;
        Ok(())
    }

    // Kept: `at` beside what is taken in, here and below, since only a fault tells it; a struct of both would be made for one call.
    /// Takes in one node more; none is a node that was written wrongly.
    fn push_node(&mut self, node: Option<Node>, at: usize) -> Result<(), TaskFault>
        ensures { Agrees (node_added at (value_of self.old) node) (value_of self.new) result }
    {
        if self.nodes.len() >= NODES {
            return Err(TaskFault::TooMany { at });
        }
        let Some(node) = node else {
            return Err(TaskFault::BadNode { at });
        };
        if !may_follow(self.n, &self.nodes, node) {
            return Err(TaskFault::BadNode { at });
        }
        if !self.named.claim_children(node) {
            return Err(TaskFault::NamedTwice { at });
        }
        self.nodes.push_reserved(node);
        Ok(())
    }

    /// Takes in one operator more.
    fn push_operator(&mut self, operator: Operator, at: usize) -> Result<(), TaskFault>
        ensures { Agrees (operator_added at (value_of self.old) operator) (value_of self.new) result }
    {
        if self.operators.len() >= OPERATORS {
            return Err(TaskFault::TooMany { at });
        }
        if !is_formula(&self.nodes, operator.precondition)
            || !is_effect(&self.nodes, operator.effect)
        {
            return Err(TaskFault::BadNode { at });
        }
        if !self
            .named
            .claim_both(operator.precondition, operator.effect)
        {
            return Err(TaskFault::NamedTwice { at });
        }
        self.operators.push_reserved(operator);
        Ok(())
    }

    /// Takes in the goal, which comes once.
    fn set_goal(&mut self, goal: u16, at: usize) -> Result<(), TaskFault>
        ensures { Agrees (goal_added at (value_of self.old) self.old.goal goal) (value_of self.new) result }
    {
        if self.goal.is_some() {
            return Err(TaskFault::Record(RecordFault::WrongKind { at }));
        }
        if !is_formula(&self.nodes, goal) {
            return Err(TaskFault::BadNode { at });
        }
        if !self.named.claim(goal) {
            return Err(TaskFault::NamedTwice { at });
        }
        self.goal = Some(goal);
        Ok(())
    }

    /// Takes in what one record says.
    fn put(&mut self, cut: Cut<'_>) -> Result<(), TaskFault>
        ensures { Agrees (content_of cut.entry.at cut.entry.kind cut.entry.body.now (value_of self.old)) (value_of self.new) result }
    {
        let at = cut.at;
        match Kind::try_from(cut)? {
            Kind::Header => self.begin(Header::try_from(cut)?, at),
            Kind::Node => self.push_node(node_in(cut)?, at),
            Kind::Operator => self.push_operator(Operator::try_from(cut)?, at),
            Kind::Goal => self.set_goal(number_in(cut)?, at),
        }
    }

    /// The second pass: takes in what the records say, one after another.
    fn fill(&mut self, paper: &[u8]) -> Result<(), TaskFault>
        requires { value_of self.old ≡ blank }
        ensures { Agrees (contents_in paper.now) (value_of self.new) result }
    {
        for record in Records::of(paper) {
            self.put(record?)?;
        }
        Ok(())
    }

    /// Puts the task of a paper in place of the old one, and the blank one after a refusal.
    fn replace(&mut self, paper: &[u8]) -> Result<(), TaskFault>
        ensures answer { result ≡ verdict (task_in paper.now) }
        ensures place { value_of self.new ≡ held (task_in paper.now) }
    {
        self.clear();
        check_records(paper)?;
        let result = self.fill(paper);
        if result.is_err() {
            self.clear();
        }
        result
    }

    /// Reads the task of a paper into its place, which is blank after a refusal.
    /// A fault of the records is always the first that they have.
    pub fn read(&mut self, paper: &[u8]) -> Result<(), TaskFault>
        ensures answer { result ≡ verdict (task_in paper.now) }
        ensures place { value_of self.new ≡ held (task_in paper.now) }
        ensures records { (f : RecordFault) → result ≡ Err (Record f) → records_in paper.now ≡ Err f }
        ensures rules { Sound (value_of self.new) }
    {
        self.replace(paper)
    }
}

//! The task place of a run.
use crate::printing::print_fault;
use crate::stop::Stop;
use task::place::Task;

/// The task that was read last, or the blank one, and the paper that it was read from.
#[derive(Drop)]
pub(crate) struct Place {
    pub task: Task,
    pub paper: Vec<u8>,
}

impl Place {
    /// The blank task.
    pub(crate) fn new(rt: &HostRuntime) -> Result<Place, Stop> {
        Ok(Place {
            task: Task::new(rt.alloc())?,
            paper: Vec::new(rt.alloc()),
        })
    }

    /// Reads a task into the place, and prints what came of it.
    pub(crate) fn read(&mut self, rt: &HostRuntime, paper: Vec<u8>) -> Result<(), Stop> {
        let answer = self.task.read(&paper);
        self.paper = paper;
        match answer {
            Ok(()) => {
                let variables = self.task.variables();
                let start = self.task.start();
                let nodes = self.task.node_count();
                let operators = self.task.operator_count();
                println!(rt;
                    "task accepted variables={variables} start={start} nodes={nodes} operators={operators}"
                )?;
                Ok(())
            }
            Err(fault) => print_fault(rt, "task", &fault),
        }
    }

    /// A copy of the task for a card of its own: the same paper read again.
    // Kept: no `Clone` of a task, whose copied vectors would not have the room that its type promises.
    pub(crate) fn copy(&self, rt: &HostRuntime) -> Result<Task, Stop> {
        let mut task = Task::new(rt.alloc())?;
        let _ = task.read(&self.paper);
        Ok(task)
    }
}

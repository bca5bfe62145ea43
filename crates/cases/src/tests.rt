//! Each limit is accepted, and one above it is refused with its number and place.
use costs::kinds::Minutes;
use plans::judge::judge_plan;
use plans::verdict::{PlanFault, Reached};
use records::{Fault, PaperKind, single};
use setpapers::list::ListSet;
use std::alloc::Global;
use std::test::Fail;
use task::place::Task;

/// Adds a record to a paper.
fn add(paper: &mut Vec<u8>, kind: u8, body: &[u8]) -> Result<(), Fail> {
    paper.extend_from_slice(&u32::try_from(body.len())?.to_le_bytes())?;
    paper.extend_from_slice(&[kind, 0])?;
    paper.extend_from_slice(body)?;
    Ok(())
}

/// The paper of a task whose nodes are true and the empty effect by turns, whose operators have two of them each,
/// and whose goal is the next. Operator 0 takes so many minutes, and each other takes 1.
fn task_paper(
    heap: Global,
    variables: u8,
    nodes: u16,
    operators: u8,
    minutes: u32,
) -> Result<Vec<u8>, Fail> {
    let mut paper = Vec::new(heap);
    add(&mut paper, 1, &[variables, 0, 0, 0, 0, 0, 0, 0, 0])?;
    for node in 0..nodes {
        let tag = if node % 2 == 0 { 1 } else { 6 };
        add(&mut paper, 2, &[tag, 0, 0, 0, 0])?;
    }
    for operator in 0..operators {
        let [p0, p1] = (u16::from(operator) * 2).to_le_bytes();
        let [e0, e1] = (u16::from(operator) * 2 + 1).to_le_bytes();
        let [m0, m1, m2, m3] = if operator == 0 { minutes } else { 1 }.to_le_bytes();
        add(&mut paper, 3, &[p0, p1, e0, e1, m0, m1, m2, m3, 1, 0, 0, 0])?;
    }
    add(&mut paper, 4, &(u16::from(operators) * 2).to_le_bytes())?;
    Ok(paper)
}

/// The number and the place of a fault; number 0, and what was counted, where there is none.
fn told<F: Fault + Drop>(answer: Result<usize, F>) -> (u8, usize) {
    match answer {
        Ok(count) => (0, count),
        Err(fault) => (fault.number(), fault.place()),
    }
}

/// The number and the place that a task's paper earns; number 0 if it is accepted.
fn task_answer(heap: Global, paper: &[u8]) -> Result<(u8, usize), Fail> {
    let mut task = Task::new(heap)?;
    Ok(told(task.read(paper).map(|()| 0)))
}

/// The number and the place that a plan earns, by minutes; number 0 and the number of steps if it is accepted.
fn plan_answer(task: &Task, plan: &[u8]) -> (u8, usize) {
    let answer: Result<Reached<Minutes>, PlanFault> = judge_plan(task, plan);
    told(answer.map(|reached| reached.steps as usize))
}

/// The paper of a list of the first so many states.
fn list_paper(heap: Global, count: u64) -> Result<Vec<u8>, Fail> {
    let mut body = Vec::new(heap);
    for state in 0..count {
        body.extend_from_slice(&state.to_le_bytes())?;
    }
    let mut paper = Vec::new(heap);
    add(&mut paper, 6, &body)?;
    Ok(paper)
}

/// The number and the place that a list of states of 11 variables earns; number 0 if it is accepted.
fn list_answer(paper: &[u8]) -> (u8, usize) {
    let mut list = ListSet::empty(11);
    told(list.read(11, paper).map(|()| 0))
}

/// The paper of one record of this kind, whose body is so many of this entry.
fn paper_of(heap: Global, kind: u8, entry: &[u8], count: u32) -> Result<Vec<u8>, Fail> {
    let mut body = Vec::new(heap);
    for _ in 0..count {
        body.extend_from_slice(entry)?;
    }
    let mut paper = Vec::new(heap);
    add(&mut paper, kind, &body)?;
    Ok(paper)
}

/// The number that a paper as a proof's one record earns; 0 if it is such a record.
fn record_answer(paper: &[u8]) -> u8 {
    told(single(paper, PaperKind::Proof).map(|_body| 0)).0
}

#[test]
fn limits_of_tasks(rt: HostRuntime) -> Result<(), Fail> {
    let heap = rt.alloc();
    assert_eq!(rt; task_answer(heap, &task_paper(heap, 64, 3, 1, 1)?)?, (0, 0));
    assert_eq!(rt; task_answer(heap, &task_paper(heap, 65, 3, 1, 1)?)?, (5, 0));
    assert_eq!(rt;
        task_answer(heap, &task_paper(heap, 3, 1024, 1, 1)?)?,
        (0, 0)
    );
    assert_eq!(rt;
        task_answer(heap, &task_paper(heap, 3, 1025, 1, 1)?)?,
        (6, 11279)
    );
    assert_eq!(rt;
        task_answer(heap, &task_paper(heap, 3, 300, 128, 1)?)?,
        (0, 0)
    );
    assert_eq!(rt;
        task_answer(heap, &task_paper(heap, 3, 300, 129, 1)?)?,
        (6, 5619)
    );
    Ok(())
}

#[test]
fn limits_of_plans(rt: HostRuntime) -> Result<(), Fail> {
    let heap = rt.alloc();
    let mut task = Task::new(heap)?;
    assert!(rt;
        task.read(&task_paper(heap, 3, 5, 2, 4_294_967_295)?)
            .is_ok()
    );
    assert_eq!(rt; plan_answer(&task, &[2, 0, 0, 0, 5, 0, 0, 0]), (0, 1));
    assert_eq!(rt;
        plan_answer(&task, &[4, 0, 0, 0, 5, 0, 0, 0, 1, 0]),
        (12, 1)
    );
    assert_eq!(rt;
        plan_answer(&task, &paper_of(heap, 5, &[1, 0], 4096)?),
        (0, 4096)
    );
    assert_eq!(rt;
        plan_answer(&task, &paper_of(heap, 5, &[1, 0], 4097)?),
        (9, 4096)
    );
    Ok(())
}

#[test]
fn limits_of_lists_and_papers(rt: HostRuntime) -> Result<(), Fail> {
    let heap = rt.alloc();
    assert_eq!(rt; list_answer(&list_paper(heap, 1024)?), (0, 0));
    assert_eq!(rt; list_answer(&list_paper(heap, 1025)?), (14, 1024));
    assert_eq!(rt; record_answer(&paper_of(heap, 9, &[0], 65_530)?), 0);
    assert_eq!(rt; record_answer(&paper_of(heap, 9, &[0], 65_531)?), 1);
    Ok(())
}

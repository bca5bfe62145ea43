//! Judging proofs.
ghost use Rattle.std.specs.Prelude.{◌≡◌, ◌↔◌, Ok, Err};
ghost use Rattle.task.specs.Held.{model};
ghost use Rattle.judge.specs.Verdict.{proof_verdict, Accepted};
ghost use Rattle.judge.specs.Lists.{ListComplete, ListPlain};
ghost use Rattle.judge.specs.Shown.{Shows};
ghost use Rattle.judge.specs.Complete.{Complete};

use crate::fault::ProofFault;
use crate::leaves::Leaves;
use records::{PaperKind, single};
use sets::set::StateSet;
use task::place::Task;
use trees::check::check_body;

/// What a proof's paper earns.
fn proof_verdict<S: StateSet>(task: &Task, set: &S, paper: &[u8]) -> Result<(), ProofFault>
    ensures { result ≡ proof_verdict (model task.now) (S.StateSet.answer set.now) paper.now }
{
    let body = single(paper, PaperKind::Proof)?;
    let leaves = Leaves { set, task };
    if !leaves.holds_start() {
        return Err(ProofFault::StartNotInside);
    }
    check_body(body, task.states(), &leaves, task.operator_count() + 1)?;
    Ok(())
}

/// Judges a proof's paper with a set: accepted exactly when the set holds the start and the body is lawful trees
/// for the goal and for each operator. Then every reachable state is in the set, and no sequence of operators leads
/// to the goal. Where none does, the list of just the reachable states is accepted with its plain proof; so is every
/// set of them that answers outside wherever it has no state.
pub fn judge_proof<S: StateSet>(task: &Task, set: &S, paper: &[u8]) -> Result<(), ProofFault>
    ensures verdict { result ≡ proof_verdict (model task.now) (S.StateSet.answer set.now) paper.now }
    ensures exact { (result ≡ Ok tt) ↔ Accepted (model task.now) (S.StateSet.answer set.now) paper.now }
    ensures sound { result ≡ Ok tt → Shows (model task.now) (S.StateSet.has set.now) }
    ensures complete { Complete (model task.now) (S.StateSet.wide set.now) (S.StateSet.has set.now) (S.StateSet.answer set.now) paper.now (result ≡ Ok tt) }
    ensures lists { ListComplete (model task.now) (S.StateSet.answer set.now) paper.now (result ≡ Ok tt) }
    ensures plain { ListPlain }
{
    proof_verdict(task, set, paper)
}

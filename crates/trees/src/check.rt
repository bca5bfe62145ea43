//! The check of a proof's trees.
ghost use Rattle.std.specs.Prelude.{◌≡◌, ◌≤◌, ◌↔◌, length, IfOk, Ok, Err};
ghost use Rattle.logic.specs.Partial.{free_count};
ghost use Rattle.logic.specs.Views.{partial};
ghost use Rattle.trees.specs.Check.{tree_at, body_verdict};
ghost use Rattle.trees.specs.Covers.{EachCovers};
ghost use Rattle.trees.specs.Leaves.{LeavesKnow};
ghost use Rattle.trees.specs.Tree.{Proves};

use crate::fault::TreeFault;
use crate::rules::LeafRules;
use logic::cube::Cube;

// Kept: body and rules are lent for one call; a struct of them would be a type, an impl and a line to make it.
/// Checks the tree of a cube that begins at `at`, and answers where it ends; the cube's free variables fall.
fn check_tree<L: LeafRules>(
    body: &[u8],
    at: usize,
    cube: Cube,
    rules: &L,
    rule: usize,
) -> Result<usize, TreeFault>
    ensures value { result ≡ tree_at (L.LeafRules.settles rules.now rule) body.now (free_count (partial cube)) at (partial cube) }
    ensures bound { IfOk result (λ n. n ≤ length body.now) }
{
    let Some(&byte) = body.get(at) else {
        return Err(TreeFault::BadByte { at });
    };
    // Kept: a number, since it is asked in this one line; an enum would be made and taken apart here.
    if byte == 0xFF {
        return if rules.is_settled(rule, &cube) {
            Ok(at + 1)
        } else {
            Err(TreeFault::Unsettled { at })
        };
    }
    let Some((low, high)) = cube.split(byte) else {
        return Err(TreeFault::BadByte { at });
    };
    let middle = check_tree(body, at + 1, low, rules, rule)?;
    check_tree(body, middle, high, rules, rule)
}

/// Checks one tree after another, for each rule below `count`, and then the end.
fn check_trees<L: LeafRules>(
    body: &[u8],
    space: Cube,
    rules: &L,
    count: usize,
) -> Result<(), TreeFault>
    ensures { result ≡ body_verdict (L.LeafRules.settles rules.now) body.now (partial space) count }
{
    let mut at = 0;
    for rule in 0..count {
        at = check_tree(body, at, space, rules, rule)?;
    }
    if at < body.len() {
        return Err(TreeFault::Trailing { at });
    }
    Ok(())
}

/// Checks the body of a proof: a tree of the whole space for each rule below `count`, in their order, and no more.
/// It is accepted exactly where it is such trees, each lawful; then every rule settles a cube around every state.
pub fn check_body<L: LeafRules>(
    body: &[u8],
    space: Cube,
    rules: &L,
    count: usize,
) -> Result<(), TreeFault>
    ensures value { result ≡ body_verdict (L.LeafRules.settles rules.now) body.now (partial space) count }
    ensures exact { (result ≡ Ok tt) ↔ Proves (L.LeafRules.settles rules.now) body.now (partial space) count }
    ensures covers { result ≡ Ok tt → EachCovers (L.LeafRules.settles rules.now) (partial space) count }
    ensures leaves { LeavesKnow (partial space) }
{
    check_trees(body, space, rules, count)
}

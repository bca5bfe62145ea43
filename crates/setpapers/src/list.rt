//! A list of states: 8 bytes to a state, in strictly ascending order.
ghost use Rattle.std.specs.Prelude.{◌≡◌, ℕ, ⊤};
ghost use Rattle.records.specs.declared.PaperKind.TheVariants.{List as ListPaper};
ghost use Rattle.logic.specs.Partial.{holds_state};
ghost use Rattle.logic.specs.Views.{partial};
ghost use Rattle.std.proofs.Common.{refl};
ghost use Rattle.setpapers.specs.Count.{rises, tally};
ghost use Rattle.setpapers.specs.ListLaws.{list_laws};
ghost use Rattle.setpapers.specs.Lists.{states, state_at, list_has, list_says, ListedState};
ghost use Rattle.setpapers.specs.Rules.{state_keeps, state_from};
ghost use Rattle.setpapers.specs.Tabled.{bytes_at};

use crate::kind::SetKind;
use crate::read_set::ReadSet;
use logic::cube::Cube;
use logic::state::is_state;
use logic::truth::Truth;
use records::PaperKind;

/// Lists of states.
#[derive(Clone, Copy)]
pub struct ListKind;

/// A set that is a list of its states.
pub type ListSet<'a> = ReadSet<'a, ListKind>;

/// How many of the listed states are in the cube.
fn count_in(body: &[u8], cube: &Cube) -> usize
    ensures { result ≡ tally (holds_state (partial cube.now)) (state_at body.now) (states body.now) }
{
    // Kept: a loop; counted by `filter` and `count` the states were tested one by one, and not four at once.
    let mut found = 0;
    for state in ListKind::entries(body) {
        if cube.agrees(u64::from_le_bytes(*state)) {
            found += 1;
        }
    }
    found
}

impl SetKind for ListKind {
    type Entry = [u8; 8];

    type Seen = ();

    ghost PAPER = { ListPaper };

    ghost LEAST = { 0 };

    ghost count = { states };

    ghost row = { bytes_at 8 };

    ghost lawful = { λ w bs. rises w (state_at bs) };

    ghost rule = { ListedState };

    ghost remembers = { λ _ _ _. ⊤ };

    ghost has = { λ _. list_has };

    ghost says = { λ bs. list_says (state_at bs) (states bs) };

    ghost meant = { list_laws };

    const PAPER: PaperKind = PaperKind::List;

    const LEAST: usize = 0;

    fn entries(body: &[u8]) -> &[[u8; 8]] {
        body.as_chunks::<8>().0
    }

    fn nothing_seen() {}

    fn may_follow(width: u8, before: &[[u8; 8]], entry: &[u8; 8], _seen: &mut ()) -> bool {
        let state = u64::from_le_bytes(*entry);
        is_state(width, state)
            && before
                .last()
                .is_none_or(|last| u64::from_le_bytes(*last) < state)
    }

    fn answer(set: &ListSet<'_>, cube: &Cube) -> Truth {
        let found = count_in(set.body, cube);
        if found == 0 {
            return Truth::False;
        }
        // At most 1,024 states are listed, so a cube of more than 10 free variables is never all listed.
        let free = cube.free_count();
        if free <= 10 && found == 1 << free {
            Truth::True
        } else {
            Truth::Open
        }
    }

    ghost none = { refl };

    ghost keeps = { state_keeps };

    ghost kept = { state_from };
}

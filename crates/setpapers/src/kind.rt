//! What a kind of set paper is.
ghost use Rattle.std.specs.Prelude.{◌≡◌, ℕ, suc, ◌+◌, Bool, true, List, []};
ghost use Rattle.logic.specs.Partial.{PartialState};
ghost use Rattle.logic.specs.Views.{partial};
ghost use Rattle.records.specs.declared.PaperKind.{PaperKind as KindOf};
ghost use Rattle.logic.specs.declared.truth.Truth.{Truth};
ghost use Rattle.sets.specs.Sets.{Laws, at_width};
ghost use Rattle.setpapers.specs.Following.{Follows, Judges};
ghost use Rattle.setpapers.specs.Rows.{all};
ghost use Rattle.setpapers.specs.Tabled.{table};

use crate::read_set::ReadSet;
use logic::cube::Cube;
use logic::truth::Truth;
use records::PaperKind;

/// A kind of set paper: its entries, the rule of each, and the set that they stand for.
// Kept: `entries` in each kind; a constant cannot be an array's length, and a parameter of the trait would stand at each use.
pub trait SetKind {
    /// The bytes of one entry.
    type Entry;
    /// What the entries before one leave for its rule.
    type Seen: Drop;

    // the kind of its papers
    ghost PAPER: { KindOf };

    // the fewest entries
    ghost LEAST: { ℕ };

    // how many entries the bytes have
    ghost count: { List ℕ → ℕ };

    // the bytes of each entry
    ghost row: { List ℕ → ℕ → Self.Entry };

    // whether an entry keeps its rule at a width, after those before it
    ghost lawful: { ℕ → List ℕ → ℕ → Bool };

    // the rule itself
    ghost rule: { ℕ → List ℕ → ℕ → Type 0 };

    // what is remembered of the first entries
    ghost remembers: { List ℕ → ℕ → Self.Seen → Type 0 };

    // the states of the set
    ghost has: { ℕ → List ℕ → ℕ → Bool };

    // the answer to a cube of its width
    ghost says: { List ℕ → PartialState → Truth };

    // where each entry keeps its rule, the states and the answers keep the laws of a set
    ghost meant: { (w : ℕ) (bs : List ℕ) → all (lawful w bs) (count bs) ≡ true → Laws w (has w bs) (λ c. at_width w c (says bs c)) };

    /// The kind of its papers.
    const PAPER: PaperKind;

    /// The fewest entries.
    const LEAST: usize;

    /// The entries of a body.
    fn entries(body: &[u8]) -> &[Self::Entry]
        ensures { result.now ≡ table (row body.now) (count body.now) };

    /// What is remembered before the first entry.
    fn nothing_seen() -> Self::Seen
        ensures { (bs : List ℕ) → remembers bs 0 result };

    /// Whether the entry keeps the rule after those before it.
    fn may_follow(
        width: u8,
        before: &[Self::Entry],
        entry: &Self::Entry,
        seen: &mut Self::Seen,
    ) -> bool
        ensures { (bs : List ℕ) (i : ℕ) → Follows (row bs) (count bs) i before.now entry.now → remembers bs i seen.old → Judges (lawful width bs i) result (remembers bs (i + 1) seen.new) };

    /// The answer of the set to a cube of its width.
    fn answer(set: &ReadSet<'_, Self>, cube: &Cube) -> Truth
        ensures { result ≡ says set.now.body.now (partial cube.now) };

    // no bytes have no entry
    ghost none: { count [] ≡ 0 };

    // an entry that passes after those before it keeps the rule
    ghost keeps: { (w : ℕ) (bs : List ℕ) (i : ℕ) → all (lawful w bs) (suc i) ≡ true → rule w bs i };

    // an entry that keeps the rule passes
    ghost kept: { (w : ℕ) (bs : List ℕ) (i : ℕ) → rule w bs i → lawful w bs i ≡ true };
}

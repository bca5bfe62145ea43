//! Layers over set papers, nested as they come.
ghost use Rattle.std.specs.Prelude.{◌≡◌, unwrap_or};
ghost use Rattle.logic.specs.Views.{partial};
ghost use Rattle.mixedsets.specs.LayeredSets.{joined, told_at, layered_wide, layered_has, layered_answer, layered_laws};

use crate::paper::PaperSet;
use logic::cube::Cube;
use logic::truth::Truth;
use sets::set::StateSet;

/// How a layer joins two sets.
// Kept: an enum beside the types `Both` and `Either` of sets, since a line of a script chooses at run time.
#[derive(Clone, Copy, PartialEq, Eq, Debug)]
pub enum Connective {
    Meeting,
    Joining,
}

impl Connective {
    /// The answer of the layer, by those of its parts.
    fn join(self, first: Truth, second: Truth) -> Truth
        ensures { result ≡ joined self first second }
    {
        match self {
            Connective::Meeting => first.and(second),
            Connective::Joining => first.or(second),
        }
    }
}

/// A set paper, borrowed or owned, or a layer over such sets.
#[derive(Drop)]
pub enum Layered<P> {
    Paper(P),
    Complement(Box<Layered<P>>),
    Pair(Connective, Box<Layered<P>>, Box<Layered<P>>),
}

/// A set paper that is read where it lies, or a layer over such sets.
pub type LayeredSet<'a> = Layered<PaperSet<'a>>;

/// The width of the first paper.
fn width_of<P: StateSet>(set: &Layered<P>) -> u8
    ensures { result ≡ layered_wide P.StateSet.wide set.now }
{
    match set {
        Layered::Paper(paper) => paper.width(),
        Layered::Complement(part) => width_of(part),
        Layered::Pair(_, first, _) => width_of(first),
    }
}

/// The answer of a paper to a cube of its width, and none to any other.
// Kept out of line: in line it took the room for a diagram's truths, a kibibyte, in the frame of each layer.
#[inline(never)]
fn paper_answer_at<P: StateSet>(paper: &P, cube: &Cube) -> Option<Truth>
    ensures { result ≡ told_at (P.StateSet.wide paper.now) (partial cube.now) (P.StateSet.answer paper.now (partial cube.now)) }
{
    // Kept: with `then` the proof was tried and did not close.
    if cube.width() == paper.width() {
        Some(paper.ask(cube))
    } else {
        None
    }
}

/// The answer to a cube of the set's width, and none to any other: a layer's is made of its parts' by three-valued logic.
fn answer_at<P: StateSet>(set: &Layered<P>, cube: &Cube) -> Option<Truth>
    ensures { result ≡ told_at (layered_wide P.StateSet.wide set.now) (partial cube.now) (layered_answer P.StateSet.wide P.StateSet.answer set.now (partial cube.now)) }
{
    match set {
        Layered::Paper(paper) => paper_answer_at(paper, cube),
        Layered::Complement(part) => Some(answer_at(part, cube)?.not()),
        Layered::Pair(connective, first, second) => {
            let first = answer_at(first, cube)?;
            let second = answer_at(second, cube).unwrap_or(Truth::False);
            Some(connective.join(first, second))
        }
    }
}

impl<P: StateSet> StateSet for Layered<P> {
    ghost wide = { layered_wide P.StateSet.wide };

    ghost has = { layered_has P.StateSet.wide P.StateSet.has };

    ghost answer = { layered_answer P.StateSet.wide P.StateSet.answer };

    ghost meant = { layered_laws P.StateSet.meant };

    fn width(&self) -> u8 {
        width_of(self)
    }

    fn ask(&self, cube: &Cube) -> Truth {
        answer_at(self, cube).unwrap_or(Truth::False)
    }
}

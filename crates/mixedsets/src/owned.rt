//! Sets of the three kinds, with their papers.
ghost use Rattle.std.specs.Prelude.{◌≡◌, IfOk};
ghost use Rattle.setpapers.specs.Diagrams.{diagram_in};
ghost use Rattle.setpapers.specs.FormulaSets.{formula_in};
ghost use Rattle.setpapers.specs.Lists.{list_in};
ghost use Rattle.setpapers.specs.Papers.{answered, outcome};

use crate::paper::{PaperSet, SetPaper};
use logic::cube::Cube;
use logic::truth::Truth;
use setpapers::diagram::DiagramSet;
use setpapers::fault::SetFault;
use setpapers::formula::FormulaSet;
use setpapers::list::ListSet;
use sets::set::StateSet;

/// A set that owns its paper, of one kind or another; where the paper breaks a rule, it is the empty set.
#[derive(Drop)]
pub enum OwnedSet {
    List(SetPaper),
    Diagram(SetPaper),
    Formula(SetPaper),
}

impl OwnedSet {
    ghost use Rattle.mixedsets.specs.OwnedSets.{owned_wide, owned_has, owned_answer, OwnsList, OwnsDiagram, OwnsFormula};
    ghost use Rattle.mixedsets.specs.PaperSets.{paper_wide, paper_has, paper_answer};

    /// The list that the paper holds.
    pub fn list(width: u8, paper: Vec<u8>) -> Result<OwnedSet, SetFault>
        ensures answer { outcome result ≡ answered (list_in width paper.items) }
        ensures set { IfOk result (λ s. OwnsList width paper.items s) }
    {
        ListSet::empty(width).read(width, &paper)?;
        Ok(OwnedSet::List(SetPaper { width, paper }))
    }

    /// The diagram that the paper holds.
    pub fn diagram(width: u8, paper: Vec<u8>) -> Result<OwnedSet, SetFault>
        ensures answer { outcome result ≡ answered (diagram_in width paper.items) }
        ensures set { IfOk result (λ s. OwnsDiagram width paper.items s) }
    {
        DiagramSet::empty(width).read(width, &paper)?;
        Ok(OwnedSet::Diagram(SetPaper { width, paper }))
    }

    /// The formula that the paper holds.
    pub fn formula(width: u8, paper: Vec<u8>) -> Result<OwnedSet, SetFault>
        ensures answer { outcome result ≡ answered (formula_in width paper.items) }
        ensures set { IfOk result (λ s. OwnsFormula width paper.items s) }
    {
        FormulaSet::empty(width).read(width, &paper)?;
        Ok(OwnedSet::Formula(SetPaper { width, paper }))
    }

    /// The same set, read where the paper lies.
    pub fn lend(&self) -> PaperSet<'_>
        ensures width { paper_wide result ≡ owned_wide self.now }
        ensures states { paper_has result ≡ owned_has self.now }
        ensures answers { paper_answer result ≡ owned_answer self.now }
    {
        match self {
            OwnedSet::List(lies) => {
                let mut set = ListSet::empty(lies.width);
                let _ = set.read(lies.width, &lies.paper);
                PaperSet::List(set)
            }
            OwnedSet::Diagram(lies) => {
                let mut set = DiagramSet::empty(lies.width);
                let _ = set.read(lies.width, &lies.paper);
                PaperSet::Diagram(set)
            }
            OwnedSet::Formula(lies) => {
                let mut set = FormulaSet::empty(lies.width);
                let _ = set.read(lies.width, &lies.paper);
                PaperSet::Formula(set)
            }
        }
    }
}

/// It reads its paper at each question; what it lends reads it once.
impl StateSet for OwnedSet {
    ghost use Rattle.mixedsets.specs.OwnedSets.{owned_wide, owned_has, owned_answer, owned_laws};

    ghost wide = { owned_wide };

    ghost has = { owned_has };

    ghost answer = { owned_answer };

    ghost meant = { owned_laws };

    fn width(&self) -> u8 {
        match self {
            OwnedSet::List(lies) => lies.width,
            OwnedSet::Diagram(lies) => lies.width,
            OwnedSet::Formula(lies) => lies.width,
        }
    }

    fn ask(&self, cube: &Cube) -> Truth {
        self.lend().ask(cube)
    }
}

//! Sets of the three kinds, over their papers.
ghost use Rattle.std.specs.Prelude.{◌≡◌, IfOk};
ghost use Rattle.setpapers.specs.Diagrams.{diagram_in};
ghost use Rattle.setpapers.specs.FormulaSets.{formula_in};
ghost use Rattle.setpapers.specs.Lists.{list_in};
ghost use Rattle.setpapers.specs.Papers.{answered, outcome};

use logic::cube::Cube;
use logic::truth::Truth;
use setpapers::diagram::DiagramSet;
use setpapers::fault::SetFault;
use setpapers::formula::FormulaSet;
use setpapers::list::ListSet;
use sets::set::StateSet;

/// A set paper, and the width that it is read at.
#[derive(Drop)]
pub struct SetPaper {
    pub width: u8,
    pub paper: Vec<u8>,
}

/// A set read where its paper lies, of one kind or another.
#[derive(Clone, Copy)]
pub enum PaperSet<'a> {
    List(ListSet<'a>),
    Diagram(DiagramSet<'a>),
    Formula(FormulaSet<'a>),
}

// Kept: a generic constructor would want three impls that name the variant of each kind, for three bodies of one line.
impl<'a> PaperSet<'a> {
    ghost use Rattle.mixedsets.specs.PaperSets.{IsList, IsDiagram, IsFormula};

    /// The list that the paper holds.
    pub fn list(width: u8, paper: &'a [u8]) -> Result<PaperSet<'a>, SetFault>
        ensures answer { outcome result ≡ answered (list_in width paper.now) }
        ensures set { IfOk result (λ s. IsList width paper.now s) }
    {
        Ok(PaperSet::List(ListSet::of(width, paper)?))
    }

    /// The diagram that the paper holds.
    pub fn diagram(width: u8, paper: &'a [u8]) -> Result<PaperSet<'a>, SetFault>
        ensures answer { outcome result ≡ answered (diagram_in width paper.now) }
        ensures set { IfOk result (λ s. IsDiagram width paper.now s) }
    {
        Ok(PaperSet::Diagram(DiagramSet::of(width, paper)?))
    }

    /// The formula that the paper holds.
    pub fn formula(width: u8, paper: &'a [u8]) -> Result<PaperSet<'a>, SetFault>
        ensures answer { outcome result ≡ answered (formula_in width paper.now) }
        ensures set { IfOk result (λ s. IsFormula width paper.now s) }
    {
        Ok(PaperSet::Formula(FormulaSet::of(width, paper)?))
    }
}

impl<'a> StateSet for PaperSet<'a> {
    ghost use Rattle.mixedsets.specs.PaperSets.{paper_wide, paper_has, paper_answer, paper_laws};

    ghost wide = { paper_wide };

    ghost has = { paper_has };

    ghost answer = { paper_answer };

    ghost meant = { paper_laws };

    fn width(&self) -> u8 {
        match self {
            PaperSet::List(set) => set.width(),
            PaperSet::Diagram(set) => set.width(),
            PaperSet::Formula(set) => set.width(),
        }
    }

    fn ask(&self, cube: &Cube) -> Truth {
        match self {
            PaperSet::List(set) => set.ask(cube),
            PaperSet::Diagram(set) => set.ask(cube),
            PaperSet::Formula(set) => set.ask(cube),
        }
    }
}

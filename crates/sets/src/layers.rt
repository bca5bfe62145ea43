//! Layers: sets made of any sets.
ghost use Rattle.std.specs.Prelude.{◌≡◌, ℕ, Bool, ◌&&◌, ◌||◌};
ghost use Rattle.logic.specs.declared.truth.Truth.{Truth};
ghost use Rattle.logic.specs.Kleene.{and3, or3};
ghost use Rattle.sets.specs.Layers.{Joins, complement_laws, joined_laws, and_joins, or_joins};
ghost use Rattle.sets.specs.Sets.{not_answer, joined_answer, not_has, joined_have};

use crate::set::StateSet;
use logic::cube::Cube;
use logic::truth::Truth;

/// The states of the part's width that it has not.
#[derive(Drop)]
pub struct Complement<S> {
    pub part: S,
}

impl<S: StateSet> StateSet for Complement<S> {
    ghost wide = { λ s. S.StateSet.wide s.part };

    ghost has = { λ s. not_has (S.StateSet.wide s.part) (S.StateSet.has s.part) };

    ghost answer = { λ s. not_answer (S.StateSet.wide s.part) (S.StateSet.answer s.part) };

    ghost meant = { λ s. complement_laws (S.StateSet.meant s.part) };

    fn width(&self) -> u8 {
        self.part.width()
    }

    fn ask(&self, cube: &Cube) -> Truth {
        if cube.width() != self.part.width() {
            return Truth::False;
        }
        self.part.ask(cube).not()
    }
}

/// How a layer joins whether each of its parts has a state, and their answers.
pub trait Joint {
    ghost state: { Bool → Bool → Bool };

    ghost answers: { Truth → Truth → Truth };

    ghost fits: { Joins state answers };

    /// The layer's answer, by those of its parts.
    fn join(&self, first: Truth, second: Truth) -> Truth
        ensures { result ≡ answers first second };
}

/// A state that both parts have.
#[derive(Clone, Copy, Default)]
pub struct Both;

/// A state that either part has.
#[derive(Clone, Copy, Default)]
pub struct Either;

impl Joint for Both {
    ghost state = { λ x y. x && y };

    ghost answers = { and3 };

    ghost fits = { and_joins };

    fn join(&self, first: Truth, second: Truth) -> Truth {
        first.and(second)
    }
}

impl Joint for Either {
    ghost state = { λ x y. x || y };

    ghost answers = { or3 };

    ghost fits = { or_joins };

    fn join(&self, first: Truth, second: Truth) -> Truth {
        first.or(second)
    }
}

/// The states that the joint makes of both parts'; a second part of another width has none of the first's.
#[derive(Drop)]
pub struct Joined<J, A, B> {
    pub joint: J,
    pub first: A,
    pub second: B,
}

/// The states that both parts have.
pub type Meeting<A, B> = Joined<Both, A, B>;

/// The states that either part has.
pub type Joining<A, B> = Joined<Either, A, B>;

impl<J: Default, A, B> Joined<J, A, B> {
    /// The layer over these parts.
    pub fn of(first: A, second: B) -> Joined<J, A, B>
        ensures { (result.first ≡ first) × (result.second ≡ second) }
    {
        Joined {
            joint: J::default(),
            first,
            second,
        }
    }
}

impl<J: Joint, A: StateSet, B: StateSet> StateSet for Joined<J, A, B> {
    ghost wide = { λ s. A.StateSet.wide s.first };

    ghost has = { λ s. joined_have J.Joint.state (A.StateSet.wide s.first) (A.StateSet.has s.first) (B.StateSet.wide s.second) (B.StateSet.has s.second) };

    ghost answer = { λ s. joined_answer J.Joint.answers (A.StateSet.wide s.first) (A.StateSet.answer s.first) (B.StateSet.answer s.second) };

    ghost meant = { λ s. joined_laws J.Joint.fits (A.StateSet.meant s.first) (B.StateSet.meant s.second) };

    fn width(&self) -> u8 {
        self.first.width()
    }

    fn ask(&self, cube: &Cube) -> Truth {
        if cube.width() != self.first.width() {
            return Truth::False;
        }
        self.joint.join(self.first.ask(cube), self.second.ask(cube))
    }
}

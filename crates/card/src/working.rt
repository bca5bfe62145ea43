//! Any row of calls, worked on a card one after another.
ghost use Rattle.std.specs.Prelude.{◌≡◌, List, [], MatchResult};
ghost use Rattle.planning.specs.Model.{Model};
ghost use Rattle.card.specs.History.{History};
ghost use Rattle.card.specs.Desks.{Stands, Next, Works};

use crate::card::{Card, Verdict};
use crate::desk::{Call, Desk, Reply};
use costs::cost::Cost;
use sets::set::StateSet;
use std::alloc::{AllocError, Global};
use std::convert::AsSlice;

impl<C: Cost> Desk<C> {
    /// Takes one call; one out of turn leaves everything as it was.
    pub fn obey<S: StateSet, P: AsSlice<u8>>(self, call: &Call<S, P>) -> (Desk<C>, Reply<C>)
        ensures { (m : Model) (h : History C) → Stands C.Cost.kind m h self → (g : History C) × Next S.StateSet.answer P.AsSlice.items call.now result.1 h g × Stands C.Cost.kind m g result.0 }
    {
        match self {
            Desk::Idle(mut card) => match call {
                Call::Plan(paper) => {
                    let answer = card.lodge_plan(paper.as_slice());
                    (Desk::Idle(card), Reply::Judged(Verdict::Plan(answer)))
                }
                Call::Proof(set, paper) => {
                    let answer = card.lodge_proof(set, paper.as_slice());
                    (Desk::Idle(card), Reply::Judged(Verdict::Proof(answer)))
                }
                Call::Begin => (Desk::Busy(card.begin()), Reply::Done),
                Call::Step(_) | Call::Finish | Call::GiveUp => (Desk::Idle(card), Reply::OutOfTurn),
            },
            Desk::Busy(mut walk) => match call {
                Call::Step(operator) => {
                    let answer = walk.step(*operator);
                    (Desk::Busy(walk), Reply::Judged(Verdict::Plan(answer)))
                }
                Call::Finish => {
                    let (card, answer) = walk.finish();
                    (Desk::Idle(card), Reply::Judged(Verdict::Plan(answer)))
                }
                Call::GiveUp => (Desk::Idle(walk.give_up()), Reply::Done),
                Call::Plan(_) | Call::Proof(_, _) | Call::Begin => {
                    (Desk::Busy(walk), Reply::OutOfTurn)
                }
            },
        }
    }

    /// Works a whole row of calls, one after another, and hands back what each was answered.
    /// Where there is no memory for the answers, nothing is done.
    pub fn work<S: StateSet, P: AsSlice<u8>>(
        self,
        heap: Global,
        calls: &[Call<S, P>],
    ) -> (Desk<C>, Result<Vec<Reply<C>>, AllocError>)
        ensures { (m : Model) (h : History C) → Stands C.Cost.kind m h self → MatchResult result.1 (λ replies. Works C.Cost.kind S.StateSet.answer P.AsSlice.items m calls.now replies.items h result.0) (λ _. result.0 ≡ self) }
    {
        // Kept: a `match`, since `?` cannot hand the desk back; a row of answers, since a closure for each would ask a `requires`.
        let mut replies = match Vec::with_capacity(heap, calls.len()) {
            Ok(replies) => replies,
            Err(error) => return (self, Err(error)),
        };
        let mut desk = self;
        for call in calls {
            let (next, reply) = desk.obey(call);
            desk = next;
            replies.push_reserved(reply);
        }
        (desk, Ok(replies))
    }
}

//! The lines that a run prints.
use crate::stop::Stop;
use card::card::{Card, Verdict};
use costs::cost::Cost;
use plans::verdict::Reached;
use records::Fault;
use std::fmt;
use std::fmt::Display;

/// A refusal: the fault's number, its layer and its place.
#[derive(Clone, Copy)]
struct Refused<'a, F>(&'a F);

impl<F: Fault> Display for Refused<'_, F> {
    fn fmt<W: fmt::Write>(&self, f: &mut fmt::Formatter<W>) -> fmt::Result {
        let number = self.0.number();
        let layer = self.0.layer();
        let place = self.0.place();
        write!(f, "refused number={number} layer={layer} place={place}")
    }
}

/// A refused paper or step, and its fault in words.
pub(crate) fn print_fault<F: Fault + Display>(
    rt: &HostRuntime,
    what: &str,
    fault: &F,
) -> Result<(), Stop> {
    println!(rt; "{what} {}: {fault}", Refused(fault))?;
    Ok(())
}

/// A verdict: where an accepted plan or walk leads, that a proof is accepted, or the refusal.
#[derive(Clone, Copy)]
struct Shown<'a, C>(&'a Verdict<C>);

impl<C: Display> Display for Shown<'_, C> {
    fn fmt<W: fmt::Write>(&self, f: &mut fmt::Formatter<W>) -> fmt::Result {
        match self.0 {
            Verdict::Plan(Ok(Reached { state, steps, cost })) => {
                write!(f, "accepted state={state} steps={steps} cost={cost}")
            }
            Verdict::Proof(Ok(())) => f.write_str("accepted"),
            Verdict::Plan(Err(fault)) => write!(f, "{}", Refused(fault)),
            Verdict::Proof(Err(fault)) => write!(f, "{}", Refused(fault)),
        }
    }
}

/// A judged plan, step, finish or proof.
pub(crate) fn print_judged<C: Cost + Display>(
    rt: &HostRuntime,
    what: &str,
    verdict: &Verdict<C>,
) -> Result<(), Stop> {
    match verdict {
        Verdict::Plan(Err(fault)) => print_fault(rt, what, fault),
        Verdict::Proof(Err(fault)) => print_fault(rt, what, fault),
        Verdict::Plan(Ok(_)) | Verdict::Proof(Ok(())) => Ok(println!(rt;
            "{what} {}",
            Shown(verdict)
        )?),
    }
}

/// What a card shows.
pub(crate) fn print_card<C: Cost + Display>(rt: &HostRuntime, card: &Card<C>) -> Result<(), Stop> {
    match card.cost() {
        Some(cost) => print!(rt; "card cost={cost}")?,
        None => print!(rt; "card cost=none")?,
    }
    let mark = if card.impossible() { "yes" } else { "no" };
    print!(rt; " impossible={mark} latest=")?;
    match card.latest() {
        Some(verdict) => println!(rt; "{}", Shown(&verdict))?,
        None => println!(rt; "none")?,
    }
    Ok(())
}

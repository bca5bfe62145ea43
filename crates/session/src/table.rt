//! The task place and the card of a run, and the commands that are worked on them.
use crate::loading::{Unmade, load, load_set};
use crate::place::Place;
use crate::printing::{print_card, print_fault, print_judged};
use crate::stop::Stop;
use bumpalo::Bump;
use card::desk::{Call, Desk, Reply};
use costs::cost::Cost;
use mixedsets::layered::LayeredSet;
use script::command::Command;
use script::kind::KindWords;
use script::paper::PaperWord;
use script::set::SetWords;
use std::fmt::Display;
use std::io::BufRead;
use std::{io, slice};

/// The task place, and the card, if one is open.
// Kept: not `Drop`, so that no walk is lost unnoticed.
pub(crate) struct Table<'t, C> {
    pub rt: &'t HostRuntime,
    pub place: &'t mut Place,
    pub card: Option<Desk<C>>,
}

/// Lets the card go, if one is open; a walk on it is given up.
fn let_go<C: Cost>(card: Option<Desk<C>>) {
    match card {
        Some(Desk::Busy(walk)) => {
            let _card = walk.give_up();
        }
        Some(Desk::Idle(_card)) => {}
        None => {}
    }
}

impl<C: Cost + Display> Table<'_, C> {
    /// Works the lines that follow, and counts them; answers the kind of the next card, where a line opens one.
    pub(crate) fn work_lines<R: BufRead + Drop>(
        &mut self,
        lines: &mut io::Lines<R>,
        count: &mut u64,
    ) -> Result<Option<KindWords>, Stop> {
        for line in lines {
            *count = count.saturating_add(1);
            let next = self.work_line(line?.as_str())?;
            if next.is_some() {
                return Ok(next);
            }
        }
        // The end of the script counts as a line that is read.
        *count = count.saturating_add(1);
        Ok(None)
    }

    /// Lets the card go, where the lines end that are worked on it.
    pub(crate) fn close(self) {
        let Table {
            rt: _,
            place: _,
            card,
        } = self;
        let_go(card);
    }

    /// Works one line; answers the kind of the next card, where the line opens one.
    pub(crate) fn work_line(&mut self, line: &str) -> Result<Option<KindWords>, Stop> {
        let heap = self.rt.alloc();
        let command = Command::read(heap, line).map_err(|fault| Stop::line(heap, &fault))?;
        match command {
            Some(command) => self.work_command(command),
            None => Ok(None),
        }
    }

    /// Works one command; answers the kind of the next card, where the command opens one.
    fn work_command(&mut self, command: Command<'_>) -> Result<Option<KindWords>, Stop> {
        match command {
            Command::Task(word) => self.read_task(word)?,
            Command::Open(kind) => {
                self.at_rest()?;
                return Ok(Some(kind));
            }
            Command::Plan(word) => self.lodge_plan(word)?,
            Command::Proof(set, word) => self.lodge_proof(set, word)?,
            Command::Begin => self.work_call("begin", Call::Begin)?,
            Command::Step(operator) => self.work_call("step", Call::Step(operator))?,
            Command::Finish => self.work_call("finish", Call::Finish)?,
            Command::GiveUp => self.work_call("give-up", Call::GiveUp)?,
            Command::Card => self.show()?,
        }
        Ok(None)
    }

    /// The card that is open.
    fn desk(&self) -> Result<&Desk<C>, Stop> {
        match &self.card {
            Some(desk) => Ok(desk),
            None => Err(Stop::NoCard),
        }
    }

    /// Refuses to leave a walk that is under way.
    fn at_rest(&self) -> Result<(), Stop> {
        match &self.card {
            Some(Desk::Busy(_)) => Err(Stop::Walking),
            _ => Ok(()),
        }
    }

    /// Reads a task into the place; a card keeps its own.
    fn read_task(&mut self, word: PaperWord<'_>) -> Result<(), Stop> {
        self.at_rest()?;
        self.place.read(self.rt, load(self.rt, word)?)
    }

    /// Lodges a plan.
    fn lodge_plan(&mut self, word: PaperWord<'_>) -> Result<(), Stop> {
        self.desk()?;
        let paper = load(self.rt, word)?;
        self.work_call("plan", Call::Plan(&paper))
    }

    /// Lodges a proof; where a paper of its set is refused, nothing is lodged.
    /// Sets are read at the width of the card's task.
    fn lodge_proof(&mut self, set: SetWords<'_>, word: PaperWord<'_>) -> Result<(), Stop> {
        let width = match self.desk()? {
            Desk::Idle(card) => card.task().variables(),
            Desk::Busy(_) => return Err(Stop::Walking),
        };
        let paper = load(self.rt, word)?;
        let papers = Bump::new(self.rt.alloc());
        match load_set(self.rt, &papers, width, &set) {
            Ok(set) => self.work_call("proof", Call::Proof(&set, &paper)),
            Err(Unmade::Refused(fault)) => print_fault(self.rt, "set", &fault),
            Err(Unmade::Stopped(stop)) => Err(stop),
        }
    }

    /// Works one call on the card, and prints what it was answered.
    // Kept: the name beside the call, as each is made; a match from calls to names would be six lines more.
    fn work_call(&mut self, what: &str, call: Call<&LayeredSet<'_>, &[u8]>) -> Result<(), Stop> {
        let desk = self.card.take().ok_or(Stop::NoCard)?;
        // Kept: a row of one, since the project wants the law over rows of calls in the contract of the call that the program makes.
        let (desk, replies) = desk.work(self.rt.alloc(), slice::from_ref(&call));
        // Kept: no plain assignment, which would drop what is there, though that is none, as it was taken.
        let_go(self.card.replace(desk));
        for reply in &replies? {
            match reply {
                Reply::Judged(verdict) => print_judged(self.rt, what, verdict)?,
                Reply::Done => println!(self.rt; "{what}")?,
                Reply::OutOfTurn => {
                    self.at_rest()?;
                    return Err(Stop::NoWalk);
                }
            }
        }
        Ok(())
    }

    /// Shows the card, in mid-walk too.
    fn show(&self) -> Result<(), Stop> {
        match self.desk()? {
            Desk::Idle(card) => print_card(self.rt, card),
            Desk::Busy(walk) => print_card(self.rt, walk.card()),
        }
    }
}

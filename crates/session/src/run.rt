//! Works a whole script.
use crate::lines::Lines;
use crate::place::Place;
use crate::stop::Stop;
use crate::table::Table;
use card::card::Card;
use card::desk::Desk;
use costs::cost::Cost;
use costs::kinds::{Crew, Minutes, Pair, Steps};
use script::kind::{KindWords, Measure};
use std::fmt::Display;
use std::io;
use std::io::{BufRead, BufReader, Read};
use std::process::ExitCode;

/// A session: the lines of its script, how many were read, and its task place.
#[derive(Drop)]
struct Session<'s, R> {
    rt: &'s HostRuntime,
    lines: io::Lines<R>,
    // Kept: lent, since the end of a run that fails is told with its line after the session is gone.
    count: &'s mut u64,
    place: Place,
}

impl<R: BufRead + Drop> Session<'_, R> {
    /// Works the lines that follow, with this card or none open, and closes it; answers the kind of the next card, if there is one.
    fn work_lines<C: Cost + Display>(
        &mut self,
        card: Option<Desk<C>>,
    ) -> Result<Option<KindWords>, Stop> {
        let mut table = Table {
            rt: self.rt,
            place: &mut self.place,
            card,
        };
        let next = table.work_lines(&mut self.lines, self.count);
        table.close();
        next
    }

    /// Opens a card and works the lines that follow.
    fn work_card<C: Cost + Display>(&mut self) -> Result<Option<KindWords>, Stop> {
        let card: Card<C> = Card::open(self.place.copy(self.rt)?);
        self.work_lines(Some(Desk::Idle(card)))
    }

    /// The same, for a card whose cost is a pair, the first of which is in `A`.
    fn work_pair<A: Cost + Display>(&mut self, second: Measure) -> Result<Option<KindWords>, Stop> {
        match second {
            Measure::Minutes => self.work_card::<Pair<A, Minutes>>(),
            Measure::Crew => self.work_card::<Pair<A, Crew>>(),
            Measure::Steps => self.work_card::<Pair<A, Steps>>(),
        }
    }

    /// The same, for a card of a kind.
    fn work_kind(&mut self, kind: KindWords) -> Result<Option<KindWords>, Stop> {
        println!(self.rt; "open {kind}")?;
        // Kept: two matches, three arms for each place of a pair; one match on a measure would want a trait of visitors with three impls.
        match kind {
            KindWords::One(Measure::Minutes) => self.work_card::<Minutes>(),
            KindWords::One(Measure::Crew) => self.work_card::<Crew>(),
            KindWords::One(Measure::Steps) => self.work_card::<Steps>(),
            KindWords::Two(Measure::Minutes, second) => self.work_pair::<Minutes>(second),
            KindWords::Two(Measure::Crew, second) => self.work_pair::<Crew>(second),
            KindWords::Two(Measure::Steps, second) => self.work_pair::<Steps>(second),
        }
    }
}

/// Works every line of a script, and prints a line for each command; counts the lines as they are read.
fn work_script<R: BufRead + Drop>(
    rt: &HostRuntime,
    script: R,
    count: &mut u64,
) -> Result<(), Stop> {
    let mut session = Session {
        rt,
        lines: script.lines(rt.alloc()),
        count,
        place: Place::new(rt)?,
    };
    let mut next = session.work_lines::<Minutes>(None)?;
    // Kept: counted, since a `while let` wants a proof that each card takes a line, in the contracts of four functions.
    for _ in 0..u64::MAX {
        let Some(kind) = next else {
            break;
        };
        next = session.work_kind(kind)?;
    }
    Ok(())
}

/// Works every line of the script, and prints a line for each command.
pub fn run<R: BufRead>(rt: &HostRuntime, lines: &mut Lines<R>) -> Result<(), Stop> {
    work_script(rt, &mut lines.reader, &mut lines.count)
}

/// Works a script, and prints a line for each command; where the run ends early, says on standard error at which line and why.
pub fn work<R: Read + Drop>(rt: &HostRuntime, program: &str, script: R) -> io::Result<ExitCode> {
    let mut lines = Lines {
        reader: BufReader::new(rt.alloc(), script)?,
        count: 0,
    };
    match run(rt, &mut lines) {
        Ok(()) => Ok(ExitCode::SUCCESS),
        Err(stop) => {
            let line = lines.count;
            eprintln!(rt; "{program}: line {line}: {stop}")?;
            Ok(ExitCode::FAILURE)
        }
    }
}

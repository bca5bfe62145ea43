//! The commands of a script, and how a line is read.
ghost use Rattle.std.specs.Prelude.{IfOk};
ghost use Rattle.script.specs.Names.{NameRead, kind_name, verb_name, Calls};

use crate::fault::{NoName, ScriptFault};
use crate::kind::KindWords;
use crate::paper::PaperWord;
use crate::set::SetWords;
use std::alloc::{AllocError, Global};
use std::str::FromStr;

/// What one line asks for.
#[derive(Drop)]
pub enum Command<'a> {
    Task(PaperWord<'a>),
    Open(KindWords),
    Plan(PaperWord<'a>),
    Proof(SetWords<'a>, PaperWord<'a>),
    Begin,
    Step(u16),
    Finish,
    GiveUp,
    Card,
}

/// The first words of commands.
#[derive(Clone, Copy)]
enum Verb {
    Task,
    Open,
    Plan,
    Proof,
    Begin,
    Step,
    Finish,
    GiveUp,
    Card,
}

impl FromStr for Verb {
    type Err = NoName;

    ghost from_str_gives = { NameRead verb_name };

    /// The verb of this name.
    fn from_str(word: &str) -> Result<Verb, NoName> {
        match word {
            "task" => Ok(Verb::Task),
            "open" => Ok(Verb::Open),
            "plan" => Ok(Verb::Plan),
            "proof" => Ok(Verb::Proof),
            "begin" => Ok(Verb::Begin),
            "step" => Ok(Verb::Step),
            "finish" => Ok(Verb::Finish),
            "give-up" => Ok(Verb::GiveUp),
            "card" => Ok(Verb::Card),
            _ => Err(NoName),
        }
    }
}

impl Verb {
    /// How its command is written.
    fn usage(self) -> &'static str {
        match self {
            Verb::Task => "task PAPER",
            Verb::Open => "open KIND",
            Verb::Plan => "plan PAPER",
            Verb::Proof => "proof SET PAPER",
            Verb::Begin => "begin",
            Verb::Step => "step N",
            Verb::Finish => "finish",
            Verb::GiveUp => "give-up",
            Verb::Card => "card",
        }
    }
}

impl Command<'_> {
    /// The command of a line, or none where the line holds no words.
    pub fn read(heap: Global, line: &str) -> Result<Option<Command<'_>>, ScriptFault<'_>> {
        let words = words(heap, line)?;
        let [name, rest @ ..] = words.as_slice() else {
            return Ok(None);
        };
        Ok(Some(Command::of_words(heap, name, rest)?))
    }

    /// The command that begins with this word and goes on with these.
    fn of_words<'a>(
        heap: Global,
        name: &'a str,
        rest: &[&'a str],
    ) -> Result<Command<'a>, ScriptFault<'a>>
        ensures { IfOk result (λ command. Calls name.now command) }
    {
        let verb: Verb = name.parse().map_err(|_| ScriptFault::UnknownCommand(name))?;
        match (verb, rest) {
            (Verb::Task, [paper]) => Ok(Command::Task(PaperWord::read(heap, paper)?)),
            (Verb::Open, [kind]) => Ok(Command::Open(kind_named(kind)?)),
            (Verb::Plan, [paper]) => Ok(Command::Plan(PaperWord::read(heap, paper)?)),
            (Verb::Proof, words) => {
                let mut words = words.iter();
                let set = SetWords::read(heap, &mut words)?;
                let [paper] = words.as_slice() else {
                    return Err(ScriptFault::WrongWords(verb.usage()));
                };
                Ok(Command::Proof(set, PaperWord::read(heap, paper)?))
            }
            (Verb::Begin, []) => Ok(Command::Begin),
            (Verb::Step, [number]) => Ok(Command::Step(operator(number)?)),
            (Verb::Finish, []) => Ok(Command::Finish),
            (Verb::GiveUp, []) => Ok(Command::GiveUp),
            (Verb::Card, []) => Ok(Command::Card),
            _ => Err(ScriptFault::WrongWords(verb.usage())),
        }
    }
}

/// The words of a line, without its comment: they are parted by spaces, tabs, carriage returns and line feeds.
fn words(heap: Global, line: &str) -> Result<Vec<&str>, AllocError> {
    let text = line.split_once('#').map_or(line, |(text, _comment)| text);
    // Kept: two ways to the same words. Papers in hexadecimal are long words, which the first passes eight bytes at a time; it parts at form feeds too.
    if text.contains("hex:") && !text.contains('\u{c}') {
        return text.split_ascii_whitespace().collect(heap);
    }
    text.split([' ', '\t', '\r', '\n'])
        .filter(|word| !word.is_empty())
        .collect(heap)
}

/// The kind of cost that a word names.
fn kind_named(word: &str) -> Result<KindWords, ScriptFault<'_>>
    ensures { NameRead kind_name word.now result }
{
    word.parse().map_err(|_| ScriptFault::UnknownKind(word))
}

/// An operator number: decimal digits, and no sign.
fn operator(word: &str) -> Result<u16, ScriptFault<'_>> {
    if word.starts_with('+') {
        return Err(ScriptFault::NoNumber(word));
    }
    word.parse().map_err(|_| ScriptFault::NoNumber(word))
}

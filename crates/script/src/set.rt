//! Sets, as a line describes them: in prefix form.
ghost use Rattle.script.specs.Names.{NameRead, set_name};

use crate::fault::{NoName, ScriptFault};
use crate::paper::PaperWord;
use std::alloc::Global;
use std::slice;
use std::str::FromStr;

// Kept: words of the language, apart from the sets that they stand for: this crate reads lines, and depends on no other here.
/// The sorts of papers that hold a set.
#[derive(Clone, Copy)]
pub enum SetPaper {
    List,
    Diagram,
    Formula,
}

/// The layers over two sets.
#[derive(Clone, Copy)]
pub enum Pairing {
    Meeting,
    Joining,
}

/// A set: a paper that holds one, or a layer over other sets.
#[derive(Drop)]
pub enum SetWords<'a> {
    Paper(SetPaper, PaperWord<'a>),
    Complement(Box<SetWords<'a>>),
    Pair(Pairing, Box<SetWords<'a>>, Box<SetWords<'a>>),
}

/// The first words of sets.
#[derive(Clone, Copy)]
enum SetName {
    Paper(SetPaper),
    Complement,
    Pair(Pairing),
}

impl FromStr for SetName {
    type Err = NoName;

    ghost from_str_gives = { NameRead set_name };

    /// What a word that begins a set stands for.
    fn from_str(word: &str) -> Result<SetName, NoName> {
        match word {
            "list" => Ok(SetName::Paper(SetPaper::List)),
            "diagram" => Ok(SetName::Paper(SetPaper::Diagram)),
            "formula" => Ok(SetName::Paper(SetPaper::Formula)),
            "complement" => Ok(SetName::Complement),
            "meeting" => Ok(SetName::Pair(Pairing::Meeting)),
            "joining" => Ok(SetName::Pair(Pairing::Joining)),
            _ => Err(NoName),
        }
    }
}

/// The most levels of a set: 1,000 layers inside each other, and a paper.
const DEEPEST: u16 = 1_001;

/// How a set is written.
const USAGE: &str =
    "list PAPER, diagram PAPER, formula PAPER, complement SET, meeting SET SET or joining SET SET";

/// The next word of a set.
fn next<'a>(words: &mut slice::Iter<'_, &'a str>) -> Result<&'a str, ScriptFault<'a>> {
    words.next().copied().ok_or(ScriptFault::WrongWords(USAGE))
}

impl<'a> SetWords<'a> {
    /// The set that the words begin with; the words that follow it are left.
    pub(crate) fn read(
        heap: Global,
        words: &mut slice::Iter<'_, &'a str>,
    ) -> Result<SetWords<'a>, ScriptFault<'a>> {
        SetWords::within(heap, words, DEEPEST)
    }

    /// The same, for a set of at most so many levels.
    fn within(
        heap: Global,
        words: &mut slice::Iter<'_, &'a str>,
        depth: u16,
    ) -> Result<SetWords<'a>, ScriptFault<'a>> {
        let name = next(words)?;
        let sort = name.parse().map_err(|_| ScriptFault::UnknownSet(name))?;
        if depth == 0 {
            return Err(ScriptFault::DeepSet);
        }
        match sort {
            SetName::Paper(sort) => {
                let paper = PaperWord::read(heap, next(words)?)?;
                Ok(SetWords::Paper(sort, paper))
            }
            SetName::Complement => {
                let inner = SetWords::within(heap, words, depth - 1)?;
                Ok(SetWords::Complement(Box::new(heap, inner)?))
            }
            SetName::Pair(pairing) => {
                let first = SetWords::within(heap, words, depth - 1)?;
                let second = SetWords::within(heap, words, depth - 1)?;
                let first = Box::new(heap, first)?;
                let second = Box::new(heap, second)?;
                Ok(SetWords::Pair(pairing, first, second))
            }
        }
    }
}

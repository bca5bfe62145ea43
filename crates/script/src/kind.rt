//! Kinds of cost, as a line names them.
ghost use Rattle.std.specs.Prelude.{Some};
ghost use Rattle.script.specs.Names.{NameRead, measure_name, kind_name};

use crate::fault::NoName;
use std::fmt;
use std::str::FromStr;

/// One number of a cost.
#[derive(Clone, Copy)]
pub enum Measure {
    Minutes,
    Crew,
    Steps,
}

impl FromStr for Measure {
    type Err = NoName;

    ghost from_str_gives = { NameRead measure_name };

    /// The measure of this name.
    fn from_str(word: &str) -> Result<Measure, NoName> {
        match word {
            "minutes" => Ok(Measure::Minutes),
            "crew" => Ok(Measure::Crew),
            "steps" => Ok(Measure::Steps),
            _ => Err(NoName),
        }
    }
}

// Kept: by hand, since its contract says what is printed, and no derive gives one.
impl fmt::Display for Measure {
    ghost output = { λ measure. Some (measure_name measure) };

    fn fmt<W: fmt::Write>(&self, f: &mut fmt::Formatter<W>) -> fmt::Result {
        match self {
            Measure::Minutes => f.write_str("minutes"),
            Measure::Crew => f.write_str("crew"),
            Measure::Steps => f.write_str("steps"),
        }
    }
}

/// A kind of cost: one measure, or a pair of two.
#[derive(Clone, Copy)]
pub enum KindWords {
    One(Measure),
    Two(Measure, Measure),
}

impl FromStr for KindWords {
    type Err = NoName;

    ghost from_str_gives = { NameRead kind_name };

    /// The kind of this name: a measure's, or two joined by a comma.
    fn from_str(word: &str) -> Result<KindWords, NoName> {
        match word.split_once(',') {
            Some((first, second)) => Ok(KindWords::Two(first.parse()?, second.parse()?)),
            None => Ok(KindWords::One(word.parse()?)),
        }
    }
}

// Kept: by hand, since its contract says what is printed, and no derive gives one.
impl fmt::Display for KindWords {
    ghost output = { λ kind. Some (kind_name kind) };

    fn fmt<W: fmt::Write>(&self, f: &mut fmt::Formatter<W>) -> fmt::Result {
        match self {
            KindWords::One(measure) => write!(f, "{measure}"),
            KindWords::Two(first, second) => write!(f, "{first},{second}"),
        }
    }
}

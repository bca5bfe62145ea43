//! Papers as bytes. A paper is made of records: a length of four bytes, a kind of two bytes, and a body.
//! All numbers are little-endian.
#![tactic(auto)]

ghost use Rattle.std.specs.Prelude.{◌≡◌, ℕ, ◌+◌, ◌<◌, ◌++◌, length, IfOk, Some};
ghost use Rattle.std.specs.Iterator.{item_count};
ghost use Rattle.records.specs.declared.Layer.{Layer};
ghost use Rattle.records.specs.Faults.{number_of, layer_of, place_of, word_of};
ghost use Rattle.records.specs.Kinds.{code_of, entry_of};
ghost use Rattle.records.specs.Cuts.{seen, viewed, cut_at};
ghost use Rattle.records.specs.Walks.{left_in, Gives};
ghost use Rattle.records.specs.Single.{single_in, ended};
ghost use Rattle.records.specs.Papers.{head_of, Exact};

use std::fmt;
use thiserror::Error;

/// The rules that a fault breaks: those of records, tasks, plans, sets or proofs.
#[derive(Clone, Copy, Debug, PartialEq, Eq)]
pub enum Layer {
    Record,
    Task,
    Plan,
    Set,
    Proof,
}

// Kept: by hand, since its contract says what is printed, and no derive gives one.
impl fmt::Display for Layer {
    ghost output = { λ layer. Some (word_of layer) };

    fn fmt<W: fmt::Write>(&self, f: &mut fmt::Formatter<W>) -> fmt::Result {
        match self {
            Self::Record => f.write_str("record"),
            Self::Task => f.write_str("task"),
            Self::Plan => f.write_str("plan"),
            Self::Set => f.write_str("set"),
            Self::Proof => f.write_str("proof"),
        }
    }
}

/// What is wrong with a paper, told by its number among all verdicts, the layer whose rules are broken, and a place.
pub trait Fault {
    ghost number: { Self → ℕ };

    ghost layer: { Self → Layer };

    ghost place: { Self → ℕ };

    /// The fault's number among all verdicts.
    fn number(&self) -> u8
        ensures { result ≡ number self.now };

    /// The layer whose rules are broken.
    fn layer(&self) -> Layer
        ensures { result ≡ layer self.now };

    /// Where the fault is: a byte, a step or an entry, by the kind of fault.
    fn place(&self) -> usize
        ensures { result ≡ place self.now };
}

/// What can be wrong with the records of a paper, and where the record begins that is wrong.
#[derive(Clone, Copy, Debug, PartialEq, Eq, Error)]
pub enum RecordFault {
    /// The paper is longer than 65,536 bytes.
    #[error("the paper is longer than 65,536 bytes")]
    TooLong,
    /// Fewer than six bytes are left for a head, or fewer than its length says for a body.
    #[error("the record at byte {at} is cut short")]
    CutShort { at: usize },
    /// The record's kind may not stand here, or the paper should have ended.
    #[error("a record of this kind may not stand at byte {at}")]
    WrongKind { at: usize },
    /// The body's length does not suit its kind.
    #[error("the body's length does not suit the record's kind at byte {at}")]
    WrongLength { at: usize },
}

impl Fault for RecordFault {
    ghost number = { number_of };

    ghost layer = { layer_of };

    ghost place = { place_of };

    fn number(&self) -> u8 {
        match self {
            RecordFault::TooLong => 1,
            RecordFault::CutShort { .. } => 2,
            RecordFault::WrongKind { .. } => 3,
            RecordFault::WrongLength { .. } => 4,
        }
    }

    fn layer(&self) -> Layer {
        Layer::Record
    }

    /// The byte at which the faulty record begins; 0 for the whole paper.
    fn place(&self) -> usize {
        match self {
            RecordFault::TooLong => 0,
            RecordFault::CutShort { at }
            | RecordFault::WrongKind { at }
            | RecordFault::WrongLength { at } => *at,
        }
    }
}

/// The papers that are one record, by the number in its head.
#[derive(Clone, Copy, Debug, PartialEq, Eq)]
pub enum PaperKind {
    Plan = 5,
    List = 6,
    Diagram = 7,
    Formula = 8,
    Proof = 9,
}

impl PaperKind {
    /// The bytes of one entry of the body.
    fn entry_size(self) -> usize
        ensures value { result ≡ entry_of self }
        ensures some { 0 < result }
    {
        match self {
            PaperKind::Plan => 2,
            PaperKind::List => 8,
            PaperKind::Diagram | PaperKind::Formula => 5,
            PaperKind::Proof => 1,
        }
    }
}

/// A record cut off the front of some bytes, where it begins in its paper, and the bytes that follow it.
#[derive(Clone, Copy)]
pub struct Cut<'a> {
    pub at: usize,
    // Kept: the number in the head, since a record of an unknown kind is cut off as well.
    pub kind: u16,
    pub body: &'a [u8],
    pub rest: &'a [u8],
}

/// Cuts the first record off the bytes, which begin at `at` in their paper.
pub fn cut_record(bytes: &[u8], at: usize) -> Result<Cut<'_>, RecordFault>
    ensures value { viewed result ≡ cut_at at bytes.now }
    ensures place { IfOk result (λ c. c.at ≡ at) }
    ensures sizes { IfOk result (λ c. 6 + length c.body.now + length c.rest.now ≡ length bytes.now) }
    ensures parts { IfOk result (λ c. bytes.now ≡ head_of (length c.body.now) c.kind ++ (c.body.now ++ c.rest.now)) }
{
    let [l0, l1, l2, l3, k0, k1, rest @ ..] = bytes else {
        return Err(RecordFault::CutShort { at });
    };
    let size = u32::from_le_bytes([*l0, *l1, *l2, *l3]) as usize;
    let kind = u16::from_le_bytes([*k0, *k1]);
    if rest.len() < size {
        return Err(RecordFault::CutShort { at });
    }
    let (body, rest) = rest.split_at(size);
    Ok(Cut {
        at,
        kind,
        body,
        rest,
    })
}

/// The records of a paper, one after another; none follows one that is cut short.
#[derive(Clone, Copy)]
pub struct Records<'a> {
    paper: &'a [u8],
    at: usize,
}

impl<'a> Records<'a> {
    /// All records of a paper.
    pub fn of(paper: &'a [u8]) -> Records<'a>
        ensures place { result.at ≡ 0 }
        ensures left { left_in result ≡ paper.now }
    {
        Records { paper, at: 0 }
    }
}

impl<'a> Iterator for Records<'a> {
    type Item = Result<Cut<'a>, RecordFault>;

    ghost next_gives = { Gives };

    ghost remaining = { item_count left_in };

    fn next(&mut self) -> Option<Result<Cut<'a>, RecordFault>> {
        let bytes = self.paper.get(self.at..)?;
        if bytes.is_empty() {
            return None;
        }
        match cut_record(bytes, self.at) {
            Ok(record) => {
                self.at += 6 + record.body.len();
                Some(Ok(record))
            }
            Err(fault) => {
                self.at = self.paper.len();
                Some(Err(fault))
            }
        }
    }
}

/// No paper is longer.
pub const LONGEST: usize = 65_536;

/// The body of a paper that is one record of this kind and holds whole entries, or the paper's first fault.
pub fn single(paper: &[u8], kind: PaperKind) -> Result<&[u8], RecordFault>
    ensures value { seen result ≡ single_in kind paper.now }
    ensures exact { Exact kind paper.now (seen result) }
{
    only_record(paper, kind)
}

/// What `single` answers, found step by step.
fn only_record(paper: &[u8], kind: PaperKind) -> Result<&[u8], RecordFault>
    ensures { seen result ≡ single_in kind paper.now }
{
    if paper.len() > LONGEST {
        return Err(RecordFault::TooLong);
    }
    let first = cut_record(paper, 0)?;
    if first.kind != kind as u16 {
        return Err(RecordFault::WrongKind { at: 0 });
    }
    if first.body.len() % kind.entry_size() != 0 {
        return Err(RecordFault::WrongLength { at: 0 });
    }
    expect_end(first.rest, 6 + first.body.len())?;
    Ok(first.body)
}

/// Refuses bytes after the last record, which begin at `at` in their paper: a torn record, or one too many.
fn expect_end(rest: &[u8], at: usize) -> Result<(), RecordFault>
    ensures { result ≡ ended at rest.now tt }
{
    if rest.is_empty() {
        return Ok(());
    }
    cut_record(rest, at)?;
    Err(RecordFault::WrongKind { at })
}

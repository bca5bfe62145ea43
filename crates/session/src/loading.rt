//! The papers of a line, loaded from their files, and the set that they make.
use crate::stop::Stop;
use bumpalo::Bump;
use mixedsets::layered::{Connective, LayeredSet};
use mixedsets::paper::PaperSet;
use records::LONGEST;
use script::paper::PaperWord;
use script::set::{Pairing, SetPaper, SetWords};
use setpapers::fault::SetFault;
use std::alloc::Global;
use std::fs;
use thiserror::Error;

/// The bytes of a file.
fn load_file(rt: &HostRuntime, path: &str) -> Result<Vec<u8>, Stop> {
    match fs::read(rt, path) {
        Ok(bytes) => Ok(bytes),
        Err(error) => Err(Stop::Line(format!(in rt.alloc();
            "cannot read the file {path}: {error}: write the path of a file that can be read, or hex: and digits"
        )?)),
    }
}

/// The bytes of a paper.
pub(crate) fn load(rt: &HostRuntime, word: PaperWord<'_>) -> Result<Vec<u8>, Stop> {
    match word {
        PaperWord::Bytes(bytes) => Ok(bytes),
        PaperWord::Path(path) => load_file(rt, path),
    }
}

/// Why a set cannot be made.
#[derive(Debug, Drop, Error)]
pub(crate) enum Unmade {
    /// One of its papers is refused.
    #[error(transparent)]
    Refused(#[from] SetFault),
    /// The run ends.
    #[error(transparent)]
    Stopped(#[from] Stop),
}

/// The set of one paper.
fn paper_set(sort: SetPaper, width: u8, paper: &[u8]) -> Result<PaperSet<'_>, SetFault> {
    match sort {
        SetPaper::List => PaperSet::list(width, paper),
        SetPaper::Diagram => PaperSet::diagram(width, paper),
        SetPaper::Formula => PaperSet::formula(width, paper),
    }
}

/// A paper, where `papers` keeps it: of one that is too long, no more than shows that it is.
fn keep<'p>(papers: &'p Bump, paper: &[u8]) -> Result<&'p [u8], Stop> {
    let kept = &paper[..paper.len().min(LONGEST + 1)];
    Ok(papers.try_alloc_slice_copy(kept)?)
}

/// The set of one paper of a line.
// Kept: not inlined, since each layer of a set would hold its locals on the stack.
#[inline(never)]
fn load_paper<'p>(
    rt: &HostRuntime,
    papers: &'p Bump,
    width: u8,
    sort: SetPaper,
    word: &PaperWord<'_>,
) -> Result<LayeredSet<'p>, Unmade> {
    let paper = match word {
        PaperWord::Bytes(bytes) => keep(papers, bytes)?,
        PaperWord::Path(path) => keep(papers, &load_file(rt, path)?)?,
    };
    Ok(LayeredSet::Paper(paper_set(sort, width, paper)?))
}

/// The complement of a set, if that was made.
// Kept: not inlined, as above.
#[inline(never)]
fn complement<'p>(
    heap: Global,
    inner: Result<LayeredSet<'p>, Unmade>,
) -> Result<LayeredSet<'p>, Unmade> {
    let inner = Box::new(heap, inner?).map_err(Stop::from)?;
    Ok(LayeredSet::Complement(inner))
}

/// The layer over two sets, if the second was made.
// Kept: not inlined, as above.
#[inline(never)]
fn pair<'p>(
    heap: Global,
    pairing: Pairing,
    first: LayeredSet<'p>,
    second: Result<LayeredSet<'p>, Unmade>,
) -> Result<LayeredSet<'p>, Unmade> {
    let second = second?;
    let first = Box::new(heap, first).map_err(Stop::from)?;
    let second = Box::new(heap, second).map_err(Stop::from)?;
    let connective = match pairing {
        Pairing::Meeting => Connective::Meeting,
        Pairing::Joining => Connective::Joining,
    };
    Ok(LayeredSet::Pair(connective, first, second))
}

/// The set of a line, its papers read at a width where `papers` keeps them; the first paper that is refused, from left to right, decides.
pub(crate) fn load_set<'p>(
    rt: &HostRuntime,
    papers: &'p Bump,
    width: u8,
    set: &SetWords<'_>,
) -> Result<LayeredSet<'p>, Unmade> {
    let heap = rt.alloc();
    match set {
        SetWords::Paper(sort, word) => load_paper(rt, papers, width, *sort, word),
        SetWords::Complement(inner) => complement(heap, load_set(rt, papers, width, inner)),
        SetWords::Pair(pairing, first, second) => {
            // Kept: no `?`, which would hold the error once more on the stack of each layer.
            match load_set(rt, papers, width, first) {
                Ok(first) => pair(heap, *pairing, first, load_set(rt, papers, width, second)),
                Err(unmade) => Err(unmade),
            }
        }
    }
}

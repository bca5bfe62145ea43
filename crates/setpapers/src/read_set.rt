//! A set of states read where its paper lies.
ghost use Rattle.std.specs.Prelude.{◌≡◌, ℕ, ◌≤◌, true, Ok, Err, [], ⊤, IfOk, MatchResult};
ghost use Rattle.sets.specs.Sets.{at_width};
ghost use Rattle.setpapers.specs.Papers.{answered, kept, outcome, entries_in, Found};
ghost use Rattle.setpapers.specs.Rows.{all, verdict};

use crate::fault::SetFault;
use crate::kind::SetKind;
use logic::cube::Cube;
use logic::truth::Truth;
use records::single;
use sets::set::StateSet;
use std::alloc::AllocError;
use std::marker::PhantomData;

/// At most 1,024 entries of a kind, each of which keeps its rule.
pub struct ReadSet<'a, K: SetKind> {
    width: u8,
    pub(crate) body: &'a [u8],
    kind: PhantomData<K>,
    ghost few: { K.count body.now ≤ 1024 },
    ghost fine: { all (K.lawful width body.now) (K.count body.now) ≡ true },
}

// Kept: by hand, since the derived `Clone` of a struct with these ghost fields is refused.
impl<'a, K: SetKind> Clone for ReadSet<'a, K> {
    ghost is_clone = { λ s r. r ≡ s };

    ghost is_infallible = { λ _. ⊤ };

    fn clone(&self) -> Result<ReadSet<'a, K>, AllocError> {
        Ok(*self)
    }
}

impl<'a, K: SetKind> Copy for ReadSet<'a, K> {}

/// Whether the bytes are entries that keep the rules of their kind, and if not why.
fn check<K: SetKind>(width: u8, body: &[u8]) -> Result<(), SetFault>
    ensures { result ≡ verdict K.LEAST (K.lawful width body.now) (K.count body.now) }
{
    let entries = K::entries(body);
    if entries.len() > 1024 {
        return Err(SetFault::TooMany);
    }
    if entries.len() < K::LEAST {
        return Err(SetFault::BadEntry { entry: 0 });
    }
    let mut seen = K::nothing_seen();
    for (i, entry) in entries.iter().enumerate() {
        if !K::may_follow(width, &entries[..i], entry, &mut seen) {
            return Err(SetFault::BadEntry { entry: i });
        }
    }
    Ok(())
}

// Kept: width and paper as two parameters; a struct of them would be made for one call.
impl<'a, K: SetKind> ReadSet<'a, K> {
    /// The empty set of a width.
    pub fn empty(width: u8) -> ReadSet<'a, K>
        ensures width { result.width ≡ width }
        ensures body { result.body.now ≡ [] }
    {
        ReadSet {
            width,
            body: &[],
            kind: PhantomData,
        }
    }

    /// The set that a paper holds, where the paper lies.
    pub fn of(width: u8, paper: &'a [u8]) -> Result<ReadSet<'a, K>, SetFault>
        ensures width { IfOk result (λ s. s.width ≡ width) }
        ensures body { MatchResult result (λ s. Ok s.body.now ≡ entries_in K.PAPER K.LEAST K.lawful K.count width paper.now) (λ e. Err e ≡ entries_in K.PAPER K.LEAST K.lawful K.count width paper.now) }
        ensures rules { Found K.PAPER K.LEAST K.count (K.rule width) paper.now (outcome result) }
    {
        let body = single(paper, K::PAPER)?;
        check::<K>(width, body)?;
        let mut set = ReadSet::empty(width);
        set.body = body;
        Ok(set)
    }

    /// Reads the set where its paper lies; after a refusal it is the empty set.
    pub fn read(&mut self, width: u8, paper: &'a [u8]) -> Result<(), SetFault>
        ensures answer { result ≡ answered (entries_in K.PAPER K.LEAST K.lawful K.count width paper.now) }
        ensures width { self.new.width ≡ width }
        ensures body { self.new.body.now ≡ kept (entries_in K.PAPER K.LEAST K.lawful K.count width paper.now) }
        ensures rules { Found K.PAPER K.LEAST K.count (K.rule width) paper.now result }
    {
        *self = ReadSet::empty(width);
        *self = ReadSet::of(width, paper)?;
        Ok(())
    }
}

impl<'a, K: SetKind> StateSet for ReadSet<'a, K> {
    ghost wide = { λ s. s.width };

    ghost has = { λ s. K.has s.width s.body.now };

    ghost answer = { λ s c. at_width s.width c (K.says s.body.now c) };

    ghost meant = { λ s. K.SetKind.meant s.width s.body.now s.fine };

    fn width(&self) -> u8 {
        self.width
    }

    fn ask(&self, cube: &Cube) -> Truth {
        if cube.width() == self.width {
            K::answer(self, cube)
        } else {
            Truth::False
        }
    }
}

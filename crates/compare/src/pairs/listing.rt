//! Listing pairs of states: each once, behind the one that led to it.
ghost use Rattle.std.specs.Prelude.{◌≡◌, min, [], length};
ghost use Rattle.std.specs.List.{slice_get};
ghost use Rattle.compare.specs.Laws.{ListLaws};
ghost use Rattle.compare.specs.Listing.{entries_of};
ghost use Rattle.compare.specs.Pairs.{listed, fits, after_listing};

use crate::pairs::{Listed, PLACES, Pairs, START};
use bits::sets::{has_member, with_member};
use schema::tables::STATES;

impl Pairs {
    /// The list without entries, for two state counts; a count past STATES is taken for STATES.
    pub fn blank(firsts: u8, seconds: u8) -> Pairs
        ensures firsts { result.firsts ≡ min firsts STATES }
        ensures seconds { result.seconds ≡ min seconds STATES }
        ensures none { entries_of result ≡ [] }
    {
        Pairs {
            firsts: firsts.min(STATES as u8),
            seconds: seconds.min(STATES as u8),
            entries: [START; PLACES],
            length: 0,
            bits: [0; STATES],
        }
    }

    /// Forgets everything and notes two state counts; a count past STATES is taken for STATES.
    pub fn begin(&mut self, firsts: u8, seconds: u8)
        ensures firsts { self.new.firsts ≡ min firsts STATES }
        ensures seconds { self.new.seconds ≡ min seconds STATES }
        ensures none { entries_of self.new ≡ [] }
    {
        *self = Pairs::blank(firsts, seconds);
    }

    /// The state count of the first schema.
    pub fn firsts(&self) -> u8
        ensures { result ≡ self.now.firsts }
    {
        self.firsts
    }

    /// The state count of the second schema.
    pub fn seconds(&self) -> u8
        ensures { result ≡ self.now.seconds }
    {
        self.seconds
    }

    /// How many pairs are listed.
    #[tactic(auto, using(crate::proofs::Views::many_of))]
    pub fn length(&self) -> usize
        ensures { result ≡ length (entries_of self.now) }
    {
        self.length
    }

    /// The pair at an index, the first listed at 0.
    #[tactic(auto, using(crate::proofs::Laws::list_laws))]
    pub fn entry(&self, index: usize) -> Option<Listed>
        ensures answer { result ≡ slice_get (entries_of self.now) index }
        ensures laws { ListLaws }
    {
        if index < self.length {
            self.entries.get(index).copied()
        } else {
            None
        }
    }

    /// Whether a pair with these two states is listed.
    pub fn has(&self, first: u8, second: u8) -> bool
        ensures { result ≡ listed (entries_of self.now) first second }
    {
        let row = first as usize;
        row < STATES && has_member(self.bits[row], second)
    }

    /// Whether the pair can stand behind the others: its states lie inside the counts, and the pair
    /// that led to it is listed, or none is yet.
    fn can_stand(&self, pair: Listed) -> bool
        ensures { result ≡ fits self.now.firsts self.now.seconds self.now.length pair }
    {
        pair.first < self.firsts
            && pair.second < self.seconds
            && (self.length == 0 || (pair.parent as usize) < self.length)
    }

    /// Puts the pair behind the others, unless its two states are listed already or it cannot stand
    /// there.
    pub fn list(&mut self, pair: Listed)
        ensures entries { entries_of self.new ≡
            after_listing self.old.firsts self.old.seconds (entries_of self.old) pair }
        ensures firsts { self.new.firsts ≡ self.old.firsts }
        ensures seconds { self.new.seconds ≡ self.old.seconds }
    {
        if !self.can_stand(pair) || self.has(pair.first, pair.second) {
            return;
        }
        let row = pair.first as usize;
        self.entries[self.length] = pair;
        self.length += 1;
        self.bits[row] = with_member(self.bits[row], pair.second);
    }
}

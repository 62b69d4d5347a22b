// Rows that are the same, put together in classes, and their steps by class.
ghost use Rattle.std.specs.Prelude.{◌≡◌, ◌≢◌, ◌⊎◌, ◌↔◌, ℕ, ◌≤◌, ◌<◌, length};
ghost use Rattle.bits.specs.Words.{On};
ghost use Rattle.bisimulation.specs.Suspects.{SameRow, Acting};
ghost use Rattle.bisimulation.specs.Classes.{Classes, Classed, Leading, Alike, Saturated, ClassSteps, StepsBelow};

use super::rows::Relation;
use super::steps::Steps;
use bits::{bit_and, bit_and_not, bit_or, lowest_bit, with_bit};

impl Relation<'_> {
    // c where it is not 0 and has the row of u; else u itself.
    fn class_of(&self, c: usize, u: usize) -> usize
        requires { (c < self.now.rows) × (u < self.now.rows) }
        ensures { (result < self.now.rows)
            × ((result ≡ u) ⊎ ((result ≡ c) × (0 < c) × SameRow self.now.bytes.now c u)) }
    {
        if c == 0 {
            return u;
        }
        if !self.same(c, u) {
            return u;
        }
        c
    }

    // The class of each row: itself, or a row before it that is the same. Row 0, the end, has a class for itself. Only
    // the latest class with the same lowest vertex is looked at: rows that are the same may still have two classes.
    pub(crate) fn classes(&self) -> [u8; 128]
        requires { 0 < self.now.rows }
        ensures { Classes self.now.bytes.now self.now.rows result }
    {
        let mut class = [0u8; 128];
        // 0 where there is none yet: row 0 is no other row's class
        let mut heads = [0u8; 129];
        for u in 1..self.rows {
            let w = self.row(u).lowest();
            let c = self.class_of(heads[w] as usize, u);
            class[u] = c as u8;
            heads[w] = c as u8;
        }
        class
    }
}

// The steps of `all`, and where step k has others alike, these and k.
fn with_alike(all: u64, others: u64, k: usize) -> u64
    requires { k < 64 }
    ensures { (j : ℕ) → On result j ↔ (On all j ⊎ ((others ≢ 0) × (On others j ⊎ (j ≡ k)))) }
{
    if others == 0 {
        return all;
    }
    with_bit(bit_or(all, others), k)
}

// Steps by the class of their target's row, and by their action; `plural` are those that have another alike, which only
// saves time.
#[derive(Clone, Copy)]
pub struct Classified<'a> {
    pub steps: &'a Steps<'a>,
    pub class: &'a [u8; 128],
    pub leading: &'a [u64; 128],
    pub acting: &'a [u64; 256],
    pub plural: u64,
    pub ghost classed: { Classed steps.now.keys.now class.now steps.now.count },
    pub ghost leads: { Leading steps.now.keys.now class.now steps.now.count leading.now },
    pub ghost acts: { Acting steps.now.keys.now steps.now.count acting.now },
}

impl Steps<'_> {
    // For each class the steps that lead to it, and for each action the steps with it; returns the steps that have
    // another alike.
    pub(crate) fn classify(
        &self,
        class: &[u8; 128],
        leading: &mut [u64; 128],
        acting: &mut [u64; 256],
    ) -> u64
        requires { Classed self.now.keys.now class.now self.now.count
            × Leading self.now.keys.now class.now 0 leading.old
            × Acting self.now.keys.now 0 acting.old }
        ensures { Leading self.now.keys.now class.now self.now.count leading.new
            × Acting self.now.keys.now self.now.count acting.new }
    {
        let mut plural = 0;
        for k in 0..self.count {
            let a = self.keys[k] / 256;
            let c = class[self.keys[k] % 256] as usize;
            plural = with_alike(plural, bit_and(leading[c], acting[a]), k);
            leading[c] = with_bit(leading[c], k);
            acting[a] = with_bit(acting[a], k);
        }
        plural
    }
}

impl Classified<'_> {
    // The steps with the action of step k whose target has the class of its target.
    fn alike(&self, k: usize) -> u64
        requires { k < self.now.steps.now.count }
        ensures { let s = self.now.steps.now in
            On result k × ((j : ℕ) → On result j → Alike s.keys.now self.now.class.now k j) }
    {
        let key = self.steps.keys[k];
        let c = self.class[key % 256] as usize;
        bit_and(self.leading[c], self.acting[key / 256])
    }

    // The steps of a word, and those alike to one of them that is in `plural`.
    fn saturated(&self, word: u64) -> u64
        requires { StepsBelow self.now.steps.now.count word }
        ensures { let s = self.now.steps.now in Saturated s.keys.now self.now.class.now word result }
    {
        let mut all = word;
        let mut left = bit_and(word, self.plural);
        // the steps alike to one go with it
        while left != 0 {
            let more = self.alike(lowest_bit(left));
            all = bit_or(all, more);
            left = bit_and_not(left, more);
        }
        all
    }

    // For each class the steps that each row of it has, or has alike, and the steps that some row of it has; without
    // row 0.
    pub(crate) fn join_rows(&self, every: &mut [u64; 128], some: &mut [u64; 128])
        ensures { let s = self.now.steps.now in
            ClassSteps s.keys.now s.words.now self.now.class.now s.relation.rows every.new some.new }
    {
        for u in 1..self.steps.relation.rows {
            let c = self.class[u] as usize;
            let word = self.steps.words[u];
            every[c] = bit_and(every[c], self.saturated(word));
            some[c] = bit_or(some[c], word);
        }
    }
}

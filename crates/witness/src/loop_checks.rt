// The checks 33 to 35: of one loop, of the loops of a vertex, of all loops.
ghost use Rattle.std.specs.Prelude.{◌≡◌, ◌↔◌, true, false, Ok, List, ℕ, ◌+◌, ◌*◌, ◌≤◌, ◌<◌, length, get_or};
ghost use Rattle.bits.specs.Words.{On};
ghost use Rattle.bits.specs.Sets.{Has, Members};
ghost use Rattle.bits.specs.Tables.{row_of};
ghost use Rattle.reach.specs.Searches.{Leads, Closed};
ghost use Rattle.theory.specs.Paths.{Avoid};
ghost use Rattle.chart.specs.Steps.{StepsOf};
ghost use Rattle.witness.specs.Answers.{VertexSaid, LoopsSaid};
ghost use Rattle.witness.specs.Given.{IsLevel};
ghost use Rattle.witness.specs.Loops.{steps_of, TablesOf, LoopSaid, LoopGiven, Back, Returning};
ghost use Rattle.witness.specs.Loops.{InBoth, BelowLevel, HasReached, ReachesBelow, Below, EntryMarked, EntriesPass};
ghost use Rattle.witness.specs.Loops.{DeadEnd, LeftBy, SurveyOf};

use super::levels::{mark, next_level};
use super::loop_tables::LoopTables;
use bits::tables::{in_row, row, row_or_empty};
use bits::{Set, byte, places, with_bit};
use reach::{Reached, closure};
use report::Refusal;

// A set of vertices that branches leave by `last` alone.
#[derive(Clone, Copy)]
pub struct Part {
    pub set: Set,
    pub last: usize,
}

// What is found of a vertex with loops: if they may not pass, which of its entries' targets return; and a part with what
// those reach or more, for the next vertex.
#[derive(Clone, Copy)]
pub struct Survey {
    pub back: Option<Set>,
    pub part: Part,
}

// Whether two sets have nothing in common but v.
fn apart_but(a: Set, b: Set, v: usize) -> bool
    requires { v < 128 }
    ensures { result ≡ true → (w : ℕ) → Has a w → Has b w → w ≡ v }
{
    a.intersection(b).without(v).is_empty()
}

// Whether of the levels that are marked from 256 on each is marked below 256 too.
fn all_return(levels: &[u64; 8]) -> bool
    requires { length levels.now ≡ 8 }
    ensures { result ≡ true
        → (l : ℕ) → l < 256 → IsLevel levels.now (256 + l) → IsLevel levels.now l }
{
    row(levels, 2).difference(row(levels, 0)).is_empty()
        && row(levels, 3).difference(row(levels, 1)).is_empty()
}

impl<'a> LoopTables<'a> {
    // The members of a set, v aside, that have an entry of this level or a higher one.
    fn not_lower(&self, set: Set, v: usize, level: usize) -> Set
        requires { v < 128 }
        ensures { Members (InBoth set self.now.high.now v level) result }
    {
        set.intersection(row_or_empty(self.high, level)).without(v)
    }

    // Whether a set has neither the end nor, v aside, a vertex with an entry of this level or a higher one.
    fn below_level(&self, set: Set, v: usize, level: usize) -> bool
        requires { v < 128 }
        ensures { result ≡ true → BelowLevel set self.now.high.now v level }
    {
        !set.contains(0) && self.not_lower(set, v, level).is_empty()
    }

    // Whether x is v or leads to it.
    fn comes_back(&self, v: usize, x: usize) -> bool
        requires { (2 * x + 2 ≤ length self.now.branches.after.now) × (v < 128) }
        ensures { (result ≡ true) ↔ Back self.now.branches.after.now v x }
    {
        (x == v) | in_row(self.branches.after, x, v)
    }

    // Of the bits of a word, from vertex `from` on, those whose vertex is v or leads to it.
    fn returning_bits(&self, v: usize, from: usize, word: u64) -> u64
        requires { ((k : ℕ) → On word k → 2 * (from + k) + 2 ≤ length self.now.branches.after.now)
            × (v < 128)
            × (from ≤ 64) }
        ensures { (k : ℕ) → On result k ↔ (On word k × Back self.now.branches.after.now v (from + k)) }
    {
        let mut found: u64 = 0;
        for k in places(word) {
            if self.comes_back(v, from + k) {
                found = with_bit(found, k);
            }
        }
        found
    }

    // Those of a set that are v or lead to it.
    fn returning(&self, v: usize, set: Set) -> Set
        requires { ((x : ℕ) → Has set x → 2 * x + 2 ≤ length self.now.branches.after.now) × (v < 128) }
        ensures { Members (Returning self.now.branches.after.now v set) result }
    {
        Set {
            lo: self.returning_bits(v, 0, set.lo),
            hi: self.returning_bits(v, 64, set.hi),
        }
    }

    // 33, 34 and 35 of the loop of v of this level: those of its targets that return, and a set that has, of the end and
    // of the vertices with an entry of the level or a higher one, what the loop's body has.
    fn loop_check(&self, v: usize, level: usize, back: Set, seen: Set) -> Result<(), Refusal>
        requires { (v < 128) × (level < 256) }
        ensures { (b labels : List ℕ) → LoopGiven b labels self.now.high.now v level back seen
            → LoopSaid (StepsOf b labels) v level result }
    {
        if back.is_empty() {
            return Err(Refusal::LoopNoReturn(v, level));
        }
        if seen.contains(0) {
            return Err(Refusal::LoopEndInside(v, level));
        }
        let r = self.not_lower(seen, v, level).lowest();
        if r < 128 {
            return Err(Refusal::LoopNotLower(v, level, r));
        }
        Ok(())
    }

    // 33 to 35 of the loops of one vertex, by level. One search goes on from level to level: the bodies of lower loops,
    // which pass, have nothing that 34 or 35 of a higher one looks for.
    fn entries_check(&self, v: usize, back: Set) -> Result<(), Refusal>
        requires { TablesOf self.now
            × Members (Returning self.now.branches.after.now v (row_of self.now.entries.now v)) back
            × (v < 128) }
        ensures { VertexSaid (steps_of self.now) v result }
    {
        let mut levels = [0u64; 4];
        let mut targets = [0u64; 512];
        self.labelling.sort_entries(v, &mut levels, &mut targets);
        let mut seen = Set::empty();
        let mut next = next_level(&levels, 0);
        while let Some(level) = next {
            let to = row(&targets, level);
            seen = self.branches.closure_from(v, seen, to);
            self.loop_check(v, level, to.intersection(back), seen)?;
            next = next_level(&levels, level);
        }
        Ok(())
    }

    // Whether of w and what it reaches by branches none is the end, nor has an entry of this level or a higher one.
    fn is_below(&self, level: usize, w: usize) -> bool
        requires { (2 * w + 2 ≤ length self.now.branches.after.now)
            × (w < 128)
            × (2 * level + 2 ≤ length self.now.high.now) }
        ensures { result ≡ true → Below self.now.branches.after.now self.now.high.now level w }
    {
        let all = row(self.branches.after, w).with(w);
        !all.contains(0) && all.intersection(row(self.high, level)).is_empty()
    }

    // Marks a transition of v to w, if it is an entry: its level where it returns, 256 more where it does not. Whether it
    // returns or w is below its level; a branch passes, and where `all` is set every entry.
    fn entry_passes(&self, v: usize, label: usize, w: usize, all: bool, levels: &mut [u64]) -> bool
        requires { (2 * w + 2 ≤ length self.now.branches.after.now)
            × (w < 128)
            × (2 * label + 2 ≤ length self.now.high.now)
            × (label < 256)
            × (v < 128)
            × (length levels.old ≡ 8) }
        ensures { EntryMarked all self.now.branches.after.now self.now.high.now v label w
            levels.old result levels.new }
    {
        if label == 0 {
            return true;
        }
        if self.comes_back(v, w) {
            mark(levels, label);
            return true;
        }
        mark(levels, 256 + label);
        all || self.is_below(label, w)
    }

    // Whether each level of v has an entry that returns and, unless `all` is set, each other entry leads to what is below
    // its level.
    fn entries_pass(&self, v: usize, all: bool) -> bool
        requires { v < 128 }
        ensures { result ≡ true → EntriesPass all (steps_of self.now)
            self.now.branches.after.now self.now.high.now v }
    {
        let chart = self.labelling.chart;
        let mut levels = [0u64; 8];
        for i in chart.begins[v]..chart.begins[v + 1] {
            let w = byte(chart.body, 4 * i + 4 + 2);
            if !self.entry_passes(v, byte(self.labelling.labels, i), w, all, &mut levels) {
                return false;
            }
        }
        all_return(&levels)
    }

    // Whether all that a set reaches by branches without leaving v is below this level. Often the set itself is not.
    fn reaches_below(&self, v: usize, level: usize, set: Set) -> bool
        requires { v < 128 }
        ensures { result ≡ true → ReachesBelow self.now.branches.next.now self.now.high.now v level set }
    {
        self.below_level(set, v, level)
            && self.below_level(self.branches.closure_knowing(v, set), v, level)
    }

    // Whether the loops of v show at once that they pass: `level` is the lowest of them, what the returning entries reach
    // is below it, and the others, if there are any, are so too or are looked at one by one.
    fn pass_at_once(&self, v: usize, level: usize, back: Set, inside: Set) -> bool
        requires { TablesOf self.now
            × (level ≡ get_or self.now.low.now v 0)
            × (v < 128)
            × (level < 256)
            × Members (Returning self.now.branches.after.now v (row_of self.now.entries.now v)) back
            × HasReached self.now.branches.next.now v back inside }
        ensures { result ≡ true → VertexSaid (steps_of self.now) v (Ok tt) }
    {
        if !self.below_level(inside, v, level) {
            return false;
        }
        let others = row_or_empty(self.entries, v).difference(back);
        if others.is_empty() {
            return true;
        }
        let all = self.reaches_below(v, level, others);
        self.entries_pass(v, all)
    }

    // What a set reaches by branches without leaving v, and a part, with what it leads to. Often its last vertex leads to
    // v alone, and nothing has to be searched for.
    fn widened(&self, v: usize, set: Set, part: Part) -> Set
        requires { (v < 128) × LeftBy self.now.branches.next.now part }
        ensures { HasReached self.now.branches.next.now v set result
            × Closed (Avoid v (Leads self.now.branches.next.now)) result }
    {
        let branches = self.branches.next;
        let new = row_or_empty(branches, part.last)
            .union(set)
            .difference(part.set);
        if new.without(v).is_empty() {
            return part.set.with(v);
        }
        let others = part.set.without(part.last);
        Reached::nothing(branches).closure_from(v, others, set.with(part.last))
    }

    // What a set reaches by branches without leaving v, or more. Where the set meets a part, all of that is taken at once,
    // if it is below the level with what it leads to.
    fn surrounding(&self, v: usize, level: usize, set: Set, part: Part) -> Set
        requires { (v < 128) × LeftBy self.now.branches.next.now part }
        ensures { HasReached self.now.branches.next.now v set result
            × Closed (Avoid v (Leads self.now.branches.next.now)) result }
    {
        if !part.set.contains(v) && !part.set.intersection(set).is_empty() {
            let all = self.widened(v, set, part);
            if self.below_level(all, v, level) {
                return all;
            }
        }
        closure(self.branches.next, v, set)
    }

    // The vertices that no branch leaves.
    fn dead_ends(&self) -> Set
        requires { 2 * self.now.branches.to ≤ length self.now.branches.next.now }
        ensures { Members (DeadEnd self.now.branches.next.now self.now.branches.to) result }
    {
        let mut ends = Set::empty();
        for v in 0..self.branches.to {
            ends = ends.with_if(v, row(self.branches.next, v).is_empty());
        }
        ends
    }

    // What is searched from: the set, if all of it is taken to return to v, or those of it that do.
    fn starting(&self, all: bool, v: usize, set: Set) -> Set
        requires { ((x : ℕ) → Has set x → 2 * x + 2 ≤ length self.now.branches.after.now) × (v < 128) }
        ensures { (all ≡ true → result ≡ set)
            × (all ≡ false → Members (Returning self.now.branches.after.now v set) result) }
    {
        if all { set } else { self.returning(v, set) }
    }

    // What is found of v, whose entries lead to a set. Where that is v alone they pass. All of them are taken to return if
    // the lowest target does and no target is without a branch or has an entry of this level or a higher one. They do if
    // that holds of what they reach, v aside: since no branches go round, they lead on until they come to v.
    fn look_around(&self, ends: Set, v: usize, level: usize, to: Set, part: Part) -> Survey
        requires { ((x : ℕ) → Has to x → 2 * x + 2 ≤ length self.now.branches.after.now)
            × (v < 128)
            × LeftBy self.now.branches.next.now part }
        ensures { SurveyOf self.now.branches.next.now self.now.branches.after.now self.now.high.now ends v level to result }
    {
        let x = to.without(v).lowest();
        if x >= 128 {
            return Survey { back: None, part };
        }
        let barred = row_or_empty(self.high, level).union(ends);
        let all = in_row(self.branches.after, x, v) & apart_but(to, barred, v);
        let back = self.starting(all, v, to);
        let near = Part {
            set: self.surrounding(v, level, back, part),
            last: v,
        };
        if !all {
            return Survey {
                back: Some(back),
                part: near,
            };
        }
        if apart_but(near.set, barred, v) {
            return Survey {
                back: None,
                part: near,
            };
        }
        let some = self.returning(v, to);
        if self.below_level(near.set, v, level) {
            return Survey {
                back: Some(some),
                part: near,
            };
        }
        let part = Part {
            set: closure(self.branches.next, v, some),
            last: v,
        };
        Survey {
            back: Some(some),
            part,
        }
    }

    // 33 to 35 of the loops of one vertex, of which `level` is the lowest.
    fn vertex_check(&self, v: usize, level: usize, found: Survey) -> Result<(), Refusal>
        requires { TablesOf self.now
            × (level ≡ get_or self.now.low.now v 0)
            × (v < 128)
            × (level < 256)
            × ((ends : Set)
            × Members (DeadEnd self.now.branches.next.now self.now.branches.to) ends
            × SurveyOf self.now.branches.next.now self.now.branches.after.now self.now.high.now ends v level
            (row_of self.now.entries.now v) found) }
        ensures { VertexSaid (steps_of self.now) v result }
    {
        let Some(back) = found.back else {
            return Ok(());
        };
        if self.pass_at_once(v, level, back, found.part.set) {
            return Ok(());
        }
        self.entries_check(v, back)
    }

    // 33 to 35 of all loops, by vertex and then by level. What the entries of a vertex reach is kept for the next one,
    // since loops stand inside others.
    pub(crate) fn check(&self) -> Result<(), Refusal>
        requires { TablesOf self.now }
        ensures { LoopsSaid (steps_of self.now) result }
    {
        let ends = self.dead_ends();
        let mut part = Part {
            set: Set::empty(),
            last: 0,
        };
        // those with an entry of level 1 or higher
        for v in row_or_empty(self.high, 1).members() {
            let level = usize::from(self.low[v]);
            let to = row_or_empty(self.entries, v);
            let found = self.look_around(ends, v, level, to, part);
            self.vertex_check(v, level, found)?;
            part = found.part;
        }
        Ok(())
    }
}

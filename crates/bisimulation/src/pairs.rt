// 43 to 45 of the pairs which the sets do not let pass, and the place of the first refusal.
ghost use Rattle.std.specs.Prelude.{◌↔◌, ℕ, ◌+◌, ◌<◌, get_or, IfSome, IsNone};
ghost use Rattle.bits.specs.Words.{On};
ghost use Rattle.bits.specs.First.{First};
ghost use Rattle.bits.specs.Sets.{Members};
ghost use Rattle.bits.specs.Tables.{InFirst};
ghost use Rattle.chart.specs.Bodies.{vertices_of};
ghost use Rattle.bisimulation.specs.Suspects.{MatchedIn};
ghost use Rattle.bisimulation.specs.Pairs.{Alone, RelatedAnswer, PairSought, RowSought, AllSought};

use super::matching::Tables;
use super::steps::Steps;
use bits::tables::{row, union_of};
use bits::{Set, bit_and_not, bit_or, lowest_bit, meets};
use report::Refusal;

impl Tables<'_> {
    // The steps that match one of the transitions of v.
    fn matched(&self, v: usize) -> u64
        requires { v < 128 }
        ensures { let k = self.now.chart.now in (j : ℕ) → On result j ↔ MatchedIn self.now.at.now.into
            self.now.acting.now k.body.now (get_or k.begins.now v 0) (get_or k.begins.now (v + 1) 0) j }
    {
        let mut steps = 0;
        for i in self.chart.begins[v]..self.chart.begins[v + 1] {
            steps = bit_or(steps, self.matching(i));
        }
        steps
    }

    // Of the transitions of v, the first that none of the steps matches.
    fn alone(&self, v: usize, steps: u64) -> Option<usize>
        requires { v < 128 }
        ensures some { let k = self.now.chart.now in IfSome result (λ i. (i < get_or k.begins.now (v + 1) 0)
            × First (Alone self.now.at.now.into self.now.acting.now k.body.now steps)
            (get_or k.begins.now v 0) (get_or k.begins.now (v + 1) 0) i) }
        ensures none { let k = self.now.chart.now in IsNone result
            → First (Alone self.now.at.now.into self.now.acting.now k.body.now steps)
            (get_or k.begins.now v 0) (get_or k.begins.now (v + 1) 0) (get_or k.begins.now (v + 1) 0) }
    {
        for i in self.chart.begins[v]..self.chart.begins[v + 1] {
            if !meets(steps, self.matching(i)) {
                return Some(i);
            }
        }
        None
    }
}

// The tables, and for each chart vertex the rows that may be refused with it: every other pair passes.
#[derive(Clone, Copy)]
pub struct Search<'a> {
    pub tables: &'a Tables<'a>,
    pub steps: &'a Steps<'a>,
    pub table: &'a [u64; 256],
}

impl Search<'_> {
    // 43, 44 and 45 of a related pair.
    fn check_pair(&self, u: usize, v: usize) -> Result<(), Refusal>
        requires { (u < 128) × (v < 128) }
        ensures { let t = self.now.tables.now in
            RelatedAnswer t.at.now.into t.acting.now self.now.steps.now.words.now t.chart.now.body.now u v result }
    {
        if (u == 0) != (v == 0) {
            return Err(Refusal::PairEnds(u, v));
        }
        let word = self.steps.words[u];
        let left = bit_and_not(word, self.tables.matched(v));
        if left != 0 {
            let i = self.steps.place(u, lowest_bit(left));
            return Err(Refusal::PairExpressionStep(u, v, i));
        }
        if let Some(j) = self.tables.alone(v, word) {
            return Err(Refusal::PairChartStep(u, v, j));
        }
        Ok(())
    }

    // 43, 44 and 45 of a pair.
    fn suspect_pair(&self, u: usize, v: usize) -> Result<(), Refusal>
        requires { let t = self.now.tables.now in (u < 128) × (v < vertices_of t.chart.now.body.now) }
        ensures { let t = self.now.tables.now in
            PairSought t.at.now.into t.acting.now self.now.steps.now.words.now self.now.table.now
            t.chart.now.body.now u v result }
    {
        let table = self.table;
        if !row(table, v).contains(u) {
            return Ok(());
        }
        self.check_pair(u, v)
    }

    // 43, 44 and 45 of the pairs of row u, by column.
    fn check_row(&self, u: usize) -> Result<(), Refusal>
        requires { u < 128 }
        ensures { let t = self.now.tables.now in
            RowSought t.at.now.into t.acting.now self.now.steps.now.words.now self.now.table.now
            t.chart.now.body.now u result }
    {
        for v in 0..self.tables.chart.vertices() {
            self.suspect_pair(u, v)?;
        }
        Ok(())
    }

    // 43, 44 and 45 of the pairs of row u, where it is in the set of the rows that may be refused.
    fn suspect_row(&self, u: usize, set: Set) -> Result<(), Refusal>
        requires { (u < 128) × Members (InFirst self.now.table.now 128) set }
        ensures { let t = self.now.tables.now in
            RowSought t.at.now.into t.acting.now self.now.steps.now.words.now self.now.table.now
            t.chart.now.body.now u result }
    {
        if !set.contains(u) {
            return Ok(());
        }
        self.check_row(u)
    }

    // 43, 44 and 45 of every pair, by row: also at vertices that nothing reaches.
    pub(crate) fn run(&self) -> Result<(), Refusal>
        ensures { let t = self.now.tables.now in
            AllSought t.at.now.into t.acting.now self.now.steps.now.words.now self.now.table.now
            t.chart.now.body.now self.now.steps.now.relation.rows result }
    {
        let table = self.table;
        let set = union_of(table, 128);
        if set.is_empty() {
            return Ok(());
        }
        for u in 0..self.steps.relation.rows {
            self.suspect_row(u, set)?;
        }
        Ok(())
    }
}

// Small charts: 43 to 45 of each pair straight by the keys of the steps, which is sooner done than tables are cleared.
ghost use Rattle.std.specs.Prelude.{◌≡◌, true, ◌⊎◌, ℕ, ◌+◌, ◌/◌, ◌<◌, get_or};
ghost use Rattle.bits.specs.Words.{On};
ghost use Rattle.chart.specs.Bodies.{count_of};
ghost use Rattle.bisimulation.specs.Answers.{Related};
ghost use Rattle.bisimulation.specs.Suspects.{row_at};
ghost use Rattle.bisimulation.specs.Classes.{StepsBelow};
ghost use Rattle.bisimulation.specs.Small.{StepFits, WordPasses, PairPassesBy, RowPassesBy, RowsPassBy};

use super::runs::{action, target};
use super::steps::Steps;
use bits::{bit_and_not, bit_or, meets, places, with_bit};
use chart::Chart;

impl Steps<'_> {
    // The steps found, and step k where it has this action and its target is related to w.
    fn with_fitting(&self, found: u64, k: usize, action: usize, w: usize) -> u64
        requires { (k < self.now.count) × (w < 128) }
        ensures { (j : ℕ) → On result j → On found j
            ⊎ ((j ≡ k) × (get_or self.now.keys.now k 0 / 256 ≡ action)
            × Related self.now.relation.bytes.now (row_at self.now.keys.now k) w) }
    {
        let key = self.keys[k];
        let fits = (key / 256 == action) & self.relation.related(key % 256, w);
        if fits {
            return with_bit(found, k);
        }
        found
    }

    // The steps of a word that match transition i.
    fn fitting(&self, word: u64, chart: &Chart, i: usize) -> u64
        requires { StepsBelow self.now.count word × (i < count_of chart.now.body.now) }
        ensures { (k : ℕ) → On result k
            → StepFits self.now.keys.now self.now.relation.bytes.now chart.now.body.now i k }
    {
        let action = action(chart, i);
        let w = target(chart, i);
        let mut found = 0;
        for k in places(word) {
            found = self.with_fitting(found, k, action, w);
        }
        found
    }

    // Whether a step of the word matches each of the transitions of v, and each step of it one of them.
    fn word_passes(&self, word: u64, chart: &Chart, v: usize) -> bool
        requires { StepsBelow self.now.count word × (v < 128) }
        ensures { result ≡ true → WordPasses self.now.keys.now self.now.relation.bytes.now chart.now.body.now
            word (get_or chart.now.begins.now v 0) (get_or chart.now.begins.now (v + 1) 0) }
    {
        let mut matched = 0;
        for i in chart.begins[v]..chart.begins[v + 1] {
            let x = self.fitting(word, chart, i);
            if !meets(word, x) {
                return false;
            }
            matched = bit_or(matched, x);
        }
        bit_and_not(word, matched) == 0
    }

    // Whether 43 to 45 pass for u, which has the steps of the word, and v.
    fn pair_passes(&self, word: u64, chart: &Chart, u: usize, v: usize) -> bool
        requires { StepsBelow self.now.count word × (v < 128) }
        ensures { result ≡ true → PairPassesBy self.now.keys.now self.now.relation.bytes.now chart.now.body.now
            chart.now.begins.now word u v }
    {
        if (u == 0) != (v == 0) {
            return false;
        }
        self.word_passes(word, chart, v)
    }

    // Whether they pass for u and all that it is related to; of more than four it does not say.
    fn row_passes(&self, chart: &Chart, u: usize) -> bool
        requires { u < self.now.relation.rows }
        ensures { result ≡ true → RowPassesBy self.now.keys.now self.now.relation.bytes.now chart.now.body.now
            chart.now.begins.now (get_or self.now.words.now u 0) u }
    {
        let row = self.relation.row(u);
        if 4 < row.count() {
            return false;
        }
        for v in row.members() {
            if !self.pair_passes(self.words[u], chart, u, v) {
                return false;
            }
        }
        true
    }

    // Whether they pass for every related pair of a small chart; of other charts it does not say.
    pub(crate) fn small_passes(&self, chart: &Chart) -> bool
        ensures { result ≡ true → RowsPassBy self.now.keys.now self.now.words.now self.now.relation.bytes.now
            chart.now.body.now chart.now.begins.now self.now.relation.rows }
    {
        if (32 < self.relation.rows) | (16 < chart.count()) {
            return false;
        }
        for u in 0..self.relation.rows {
            if !self.row_passes(chart, u) {
                return false;
            }
        }
        true
    }
}

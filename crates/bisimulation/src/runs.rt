// Runs: neighbouring chart vertices that the same steps lead to. The same steps match the transitions of a vertex that
// go by one action to the vertices of a run, and these transitions are neighbours: the first of them does for all.
ghost use Rattle.std.specs.Prelude.{◌≡◌, true, ℕ, ◌+◌, ◌≤◌, ◌<◌, get_or, replicate};
ghost use Rattle.chart.specs.Bodies.{count_of, action_of, to_of};
ghost use Rattle.bisimulation.specs.Suspects.{Stretch};
ghost use Rattle.bisimulation.specs.Runs.{SameWords, Runs, OneSource, MatchedAlike};

use super::matching::Tables;
use bits::byte;
use chart::Chart;

// The action of transition i.
pub(crate) fn action(chart: &Chart, i: usize) -> usize
    requires { i < count_of chart.now.body.now }
    ensures { (result ≡ action_of chart.now.body.now i) × (result < 256) }
{
    byte(chart.body, 4 * i + 4 + 1)
}

// Its target.
pub(crate) fn target(chart: &Chart, i: usize) -> usize
    requires { i < count_of chart.now.body.now }
    ensures { (result ≡ to_of chart.now.body.now i) × (result < 128) }
{
    byte(chart.body, 4 * i + 4 + 2)
}

// Where the run from w on ends: at `end`, if the run from w + 1 up to there has the word of w, else after w.
fn run_end(into: &[u64; 128], w: usize, end: usize) -> usize
    requires { (w < end) × (end ≤ 128) × SameWords into.now (w + 1) end }
    ensures { (w < result) × (result ≤ 128) × SameWords into.now w result }
{
    if into[w] != into[end - 1] {
        return w + 1;
    }
    end
}

// Whether a transition and the fourth after it have the same action, by a look at a few of them.
fn actions_last(chart: &Chart) -> bool
    requires { 32 ≤ count_of chart.now.body.now }
    ensures { result ≡ true → (i : ℕ) × (i + 4 < count_of chart.now.body.now)
        × (action_of chart.now.body.now i ≡ action_of chart.now.body.now (i + 4)) }
{
    let count = chart.count();
    for i in (0..count - 4).step_by(count / 8) {
        if action(chart, i) == action(chart, i + 4) {
            return true;
        }
    }
    false
}

// Whether the vertices have many transitions, and many with one action: runs only save time, and only there.
fn worthwhile(chart: &Chart) -> bool {
    if chart.count() < 16 * chart.vertices() {
        return false;
    }
    actions_last(chart)
}

// Puts into a table of zeros for each vertex where its run ends, or leaves 0.
pub(crate) fn runs(into: &[u64; 128], chart: &Chart, until: &mut [u8; 128])
    requires { until.old ≡ replicate 128 0 }
    ensures { Runs into.now until.new }
{
    if !worthwhile(chart) {
        return;
    }
    let n = chart.vertices();
    let mut end = n;
    for w in (0..n).rev() {
        end = run_end(into, w, end);
        until[w] = end as u8;
    }
}

// Whether transition j has the action of i, and leads to a vertex before `end`.
fn goes_before(chart: &Chart, i: usize, j: usize, end: usize) -> bool
    requires { (i < count_of chart.now.body.now) × (j < count_of chart.now.body.now) }
    ensures { result ≡ true → (action_of chart.now.body.now i ≡ action_of chart.now.body.now j)
        × (to_of chart.now.body.now j < end) }
{
    if action(chart, i) != action(chart, j) {
        return false;
    }
    target(chart, j) < end
}

impl Tables<'_> {
    // Whether more than eight transitions of v have one action, and the first of them leads to a long run. Where no runs
    // were looked for, vertex 0 has none.
    pub(crate) fn worth_runs(&self, v: usize) -> bool
        requires { v < 128 }
        ensures { let k = self.now.chart.now in result ≡ true → get_or k.begins.now v 0 + 8 < get_or k.begins.now (v + 1) 0 }
    {
        if self.until[0] == 0 {
            return false;
        }
        let a = self.chart.begins[v];
        let b = self.chart.begins[v + 1];
        if b <= a + 8 {
            return false;
        }
        let w = target(self.chart, a);
        if (self.until[w] as usize) < w + 8 {
            return false;
        }
        action(self.chart, a) == action(self.chart, a + 8)
    }

    // The end of transitions that the same steps match as i: all up to b, or nine, or i alone.
    pub(crate) fn past_alike(&self, i: usize, b: usize) -> usize
        requires { (i < b)
            × (b ≤ count_of self.now.chart.now.body.now)
            × OneSource self.now.chart.now.body.now i b }
        ensures { Stretch (MatchedAlike self.now.at.now.into self.now.chart.now.body.now i) b i result }
    {
        let w = target(self.chart, i);
        let end = self.until[w] as usize;
        if end <= w + 8 {
            return i + 1;
        }
        if goes_before(self.chart, i, b - 1, end) {
            return b;
        }
        if b <= i + 8 {
            return i + 1;
        }
        if goes_before(self.chart, i, i + 8, end) {
            return i + 9;
        }
        i + 1
    }
}

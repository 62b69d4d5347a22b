// What a call has to take loops out of: a chart, its labels and its standing bytes, and what is ruled of loops over these.
ghost use Rattle.std.specs.Prelude.{◌≡◌, true, List, ◌↔◌, ℕ, ◌≤◌, ◌<◌, length, Err, MatchResult};
ghost use Rattle.bits.specs.Bits.{Bytes};
ghost use Rattle.bits.specs.Sets.{Members};
ghost use Rattle.chart.specs.Bodies.{count_of};
ghost use Rattle.chart.specs.Leaving.{RangeOf, OneRange};
ghost use Rattle.chart.specs.Parts.{count_in, Row, Enters};
ghost use Rattle.chart.specs.Steps.{StandingOf, Stands};
ghost use Rattle.elimination.specs.RemovalAnswers.{StandingFits, Fits, OpeningAnswer};
ghost use Rattle.elimination.specs.Together.{loops_of};
ghost use Rattle.elimination.specs.Loops.{EntryTargets, Entered, Ruled};
ghost use Rattle.elimination.specs.LoopLists.{RulingOf, RuledTogether};

use crate::loop_list::{loop_at, start_in};
use crate::walk::{Rows, Stops};
use bits::{Set, Span, byte, highest_byte};
use chart::{Chart, fill_begins, part_in, range_of};
use report::Refusal;

// Whether 50 passes: n bytes, each 0 or 1.
fn standing_fits(standing: &[u8], n: usize) -> bool
    ensures { (b : List ℕ) → n ≡ count_of b → (result ≡ true) ↔ StandingFits b standing.now }
{
    (standing.len() == n) & (highest_byte(standing) <= 1)
}

// What the transitions of a part lead to that have this label and stand.
fn labelled_in(part: &[u8], labels: &[u8], level: usize, standing: &[u8]) -> Set
    requires { Row part.now
        × (length labels.now ≡ count_in part.now)
        × (length standing.now ≡ count_in part.now) }
    ensures { Members
        (Enters part.now (Stands labels.now standing.now level)) result }
{
    let mut set = Set::empty();
    for (i, label) in labels.iter().enumerate() {
        let w = byte(part, 4 * i + 2);
        set = set.with_if(w, (*label as usize == level) & (standing[i] == 1));
    }
    set
}

// The range of v's transitions, by where those of each vertex begin.
fn range_by(chart: &Chart, v: usize) -> Span
    ensures { RangeOf chart.now.body.now v result }
{
    if v >= 128 {
        return range_of(chart.body, v);
    }
    chart.range(v)
}

// A chart, its labels and its standing bytes, which 20, 21, 30 and 50 let pass.
#[derive(Clone, Copy)]
pub struct Standing<'a> {
    pub chart: &'a [u8],
    pub labels: &'a [u8],
    pub standing: &'a [u8],
    pub ghost bytes: { Bytes chart.now },
    pub ghost fits: { Fits chart.now labels.now standing.now },
}

impl<'a> Standing<'a> {
    // 20, 21, 30 and 50.
    pub(crate) fn checked(
        chart: &'a [u8],
        labels: &'a [u8],
        standing: &'a [u8],
    ) -> Result<Standing<'a>, Refusal>
        ensures { MatchResult result
            (λ s. (s.chart.now ≡ chart.now) × (s.labels.now ≡ labels.now) × (s.standing.now ≡ standing.now))
            (λ p. OpeningAnswer chart.now labels.now standing.now (Err p)) }
    {
        chart::check(chart)?;
        let n = chart::count(chart);
        if labels.len() != n {
            return Err(Refusal::LabelsLength(labels.len()));
        }
        if !standing_fits(standing, n) {
            return Err(Refusal::StandingBytes);
        }
        Ok(Standing {
            chart,
            labels,
            standing,
        })
    }

    // What the standing entries of a level lead to that are in the range of a vertex; where there is none, nothing.
    fn entry_targets(&self, range: Span, level: usize) -> Set
        requires { OneRange self.now.chart.now range }
        ensures { (v : ℕ) → RangeOf self.now.chart.now v range → Members
            (EntryTargets self.now.chart.now self.now.labels.now self.now.standing.now v level) result }
    {
        if level == 0 {
            return Set::empty();
        }
        let from = range.from;
        let to = range.to;
        labelled_in(
            part_in(self.chart, range),
            &self.labels[from..to],
            level,
            &self.standing[from..to],
        )
    }

    // 51: what the standing entries of the loop (v, level) lead to, by the range of v.
    fn entries(&self, v: usize, level: usize, range: Span) -> Result<Set, Refusal>
        requires { RangeOf self.now.chart.now v range }
        ensures { MatchResult result
            (λ targets. Entered self.now.chart.now self.now.labels.now self.now.standing.now v level targets)
            (λ p. Ruled self.now.chart.now self.now.labels.now self.now.standing.now v level (Err p)) }
    {
        let targets = self.entry_targets(range, level);
        if targets.is_empty() {
            return Err(Refusal::NoEntry(v, level));
        }
        Ok(targets)
    }

    // 52 of a loop whose entries lead to the targets. A function of its own: one clears the room of its tables as it begins,
    // and 51 needs none. Not inlined, as `ruled_each` is not.
    #[inline(never)]
    fn judged(&self, vertex: usize, level: usize, targets: Set) -> Result<(), Refusal>
        requires { Entered self.now.chart.now self.now.labels.now self.now.standing.now vertex level targets }
        ensures { Ruled self.now.chart.now self.now.labels.now self.now.standing.now vertex level result }
    {
        let mut begins = [0; 129];
        fill_begins(self.chart, &mut begins);
        let chart = Chart::new(self.chart, &begins);
        Rows::new(&chart, self.standing).judge(targets, level, Stops::new(vertex))?;
        Ok(())
    }

    // 51 and 52.
    pub(crate) fn ruled(&self, vertex: usize, level: usize) -> Result<(), Refusal>
        ensures { Ruled self.now.chart.now self.now.labels.now self.now.standing.now vertex level result }
    {
        let targets = self.entries(vertex, level, range_of(self.chart, vertex))?;
        self.judged(vertex, level, targets)
    }

    // 51 and 52 of the loops of a list in its order; where each goes, what is in their bodies. The walks read the
    // transitions of a vertex once for all loops, and what the walk of one loop has settled serves that of the next. Not
    // inlined, so that the loop in `labelled_in` has all it goes by in registers: that took 2 in 100 more instructions.
    #[inline(never)]
    fn ruled_each(&self, rows: &mut Rows, loops: &[u8]) -> Result<Set, Refusal>
        requires { (length loops.now ≤ 128)
            × (rows.old.chart.now.body.now ≡ self.now.chart.now)
            × (rows.old.standing.now ≡ self.now.standing.now) }
        ensures { RulingOf (StandingOf self.now.chart.now self.now.labels.now self.now.standing.now)
            (loops_of loops.now) result }
    {
        let mut bodies = Set::empty();
        // no loop starts at the end
        let mut stops = Stops::new(0);
        for i in 0..loops.len() / 2 {
            let (v, level) = loop_at(loops, i);
            let targets = self.entries(v, level, range_by(rows.chart, v))?;
            let found = rows.judge(targets, level, stops.moved_to(v))?;
            stops = found.stops;
            bodies = bodies.union(found.body.without(v));
        }
        Ok(bodies)
    }

    // 51, 52 and 57.
    pub(crate) fn ruled_together(&self, loops: &[u8]) -> Result<(), Refusal>
        requires { length loops.now ≤ 128 }
        ensures { RuledTogether self.now.chart.now self.now.labels.now loops.now
            self.now.standing.now result }
    {
        let mut begins = [0; 129];
        fill_begins(self.chart, &mut begins);
        let chart = Chart::new(self.chart, &begins);
        let bodies = self.ruled_each(&mut Rows::new(&chart, self.standing), loops)?;
        match start_in(loops, bodies) {
            Some(p) => Err(Refusal::StartInside(p)),
            None => Ok(()),
        }
    }
}

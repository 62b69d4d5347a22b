// Labellings: the checks 30 to 35, and the number of loops.
#![tactic(auto)]

mod levels;
mod loop_checks;
mod loop_tables;
mod reached;
mod tables;

ghost use Rattle.std.specs.Prelude.{◌≡◌, length, IfOk, IfErr};
ghost use Rattle.bits.specs.Bits.{Bytes, HighestByte};
ghost use Rattle.chart.specs.Bodies.{vertices_of, count_of};
ghost use Rattle.chart.specs.Steps.{StepsOf};
ghost use Rattle.witness.specs.Given.{NoSteps, Room};
ghost use Rattle.witness.specs.Labellings.{labelled_of};

use bits::highest_byte;
use chart::Chart;
use loop_tables::LoopTables;
use reach::{Reached, cycle};
use reached::unreached;
use report::Refusal;
use tables::{count_loops, join_later, lowest_levels};

// A chart with a label for each of its transitions.
#[derive(Clone, Copy)]
pub struct Labelling<'a> {
    pub chart: &'a Chart<'a>,
    pub labels: &'a [u8],
    pub ghost bytes: { Bytes labels.now },
    pub ghost long: { length labels.now ≡ count_of chart.now.body.now },
}

impl<'a> Labelling<'a> {
    // 30
    pub(crate) fn new(chart: &'a Chart<'a>, labels: &'a [u8]) -> Result<Labelling<'a>, Refusal>
        ensures ok { IfOk result (λ (l : Labelling). (l.chart.now.body.now ≡ chart.now.body.now) × (l.labels.now ≡ labels.now)) }
        ensures err { IfErr result (λ (p : Refusal). labelled_of chart.now.body.now labels.now ≡ Err p) }
    {
        if labels.len() != chart.count() {
            return Err(Refusal::LabelsLength(labels.len()));
        }
        Ok(Labelling { chart, labels })
    }

    // 31 to 35, and the number of loops, by the tables of the transitions. Not inlined, as `collect` is not: what the one
    // needs of the stack then doesn't lie below what the other needs.
    #[inline(never)]
    fn check_by(
        &self,
        top: usize,
        next: &mut [u64],
        branches: &[u64],
        entries: &[u64],
        high: &mut [u64],
    ) -> Result<usize, Refusal>
        requires { HighestByte self.now.labels.now top
            × Room (StepsOf self.now.chart.now.body.now self.now.labels.now)
            (vertices_of self.now.chart.now.body.now) top
            next.old branches.now entries.now high.old }
        ensures { result ≡ labelled_of self.now.chart.now.body.now self.now.labels.now }
    {
        if let Some(p) = unreached(self.chart, next) {
            return Err(Refusal::Unreached(p));
        }
        let n = self.chart.vertices();
        // where there is no cycle, `next` has from here on what each vertex reaches by branches
        if let Some(c) = cycle(branches, n, next) {
            return Err(Refusal::BranchCycle(c));
        }
        let loops = count_loops(high, top);
        let mut low = [0u8; 128];
        lowest_levels(high, top, &mut low);
        join_later(high, top);
        let tables = LoopTables {
            labelling: *self,
            branches: Reached::new(branches, next, 0, n),
            entries,
            low: &low,
            high,
        };
        tables.check()?;
        Ok(loops)
    }

    // The same, with tables that have nothing yet.
    fn check_in(
        &self,
        top: usize,
        next: &mut [u64],
        branches: &mut [u64],
        entries: &mut [u64],
        entered: &mut [u64],
    ) -> Result<usize, Refusal>
        requires { HighestByte self.now.labels.now top
            × Room NoSteps (vertices_of self.now.chart.now.body.now) top next.old branches.old entries.old entered.old }
        ensures { result ≡ labelled_of self.now.chart.now.body.now self.now.labels.now }
    {
        self.collect(next, branches, entries, entered);
        self.check_by(top, next, branches, entries, entered)
    }
    // The same, with tables for all vertices and levels: two words for each.
    // Inlined, the tables would lie on the stack of the whole check.
    #[inline(never)]
    fn check_large(&self, top: usize) -> Result<usize, Refusal>
        requires { HighestByte self.now.labels.now top }
        ensures { result ≡ labelled_of self.now.chart.now.body.now self.now.labels.now }
    {
        self.check_in(
            top,
            &mut [0; 256],
            &mut [0; 256],
            &mut [0; 256],
            &mut [0; 512],
        )
    }
}

// What 30 to 35 say of a labelling beside a chart, with tables for all vertices and levels.
pub fn check_all(chart: &Chart, labels: &[u8]) -> Result<usize, Refusal>
    ensures { result ≡ labelled_of chart.now.body.now labels.now }
{
    Labelling::new(chart, labels)?.check_large(highest_byte(labels))
}

// The same, and a small chart by small tables: to clear large ones is much of a small file's work. The check of a file
// alone calls it: with a second caller the compiler would no longer put it there, at 44 instructions a file (row G).
pub fn check(chart: &Chart, labels: &[u8]) -> Result<usize, Refusal>
    ensures { result ≡ labelled_of chart.now.body.now labels.now }
{
    let labelling = Labelling::new(chart, labels)?;
    let top = highest_byte(labels);
    if chart.vertices() <= 16 && top < 16 {
        return labelling.check_in(top, &mut [0; 32], &mut [0; 32], &mut [0; 32], &mut [0; 32]);
    }
    labelling.check_large(top)
}

// The tables by which the steps that match a transition are found.
ghost use Rattle.std.specs.Prelude.{◌≡◌, ◌↔◌, ℕ, ◌<◌};
ghost use Rattle.bits.specs.Words.{On};
ghost use Rattle.chart.specs.Bodies.{count_of};
ghost use Rattle.bisimulation.specs.Suspects.{Match};
ghost use Rattle.bisimulation.specs.Runs.{Runs};

use super::runs::{action, target};
use bits::bit_and;
use chart::Chart;

// Words of steps for each chart vertex: the steps whose target is related to it, steps that its rows have in common, and
// the steps of all its rows. Where there are no rows these are no steps, all steps and no steps.
#[derive(Drop)]
pub struct VertexSteps {
    pub into: [u64; 128],
    pub all: [u64; 128],
    pub any: [u64; 128],
}

// The steps by chart vertex and by action, the runs of vertices, and the chart.
#[derive(Clone, Copy)]
pub struct Tables<'a> {
    pub at: &'a VertexSteps,
    pub acting: &'a [u64; 256],
    pub until: &'a [u8; 128],
    pub chart: &'a Chart<'a>,
    pub ghost runs: { Runs at.now.into until.now },
}

impl Tables<'_> {
    // The steps that match transition i: its action, and a target that is related to its target.
    pub(crate) fn matching(&self, i: usize) -> u64
        requires { i < count_of self.now.chart.now.body.now }
        ensures { (k : ℕ) → On result k ↔ Match self.now.at.now.into self.now.acting.now self.now.chart.now.body.now i k }
    {
        bit_and(
            self.at.into[target(self.chart, i)],
            self.acting[action(self.chart, i)],
        )
    }
}

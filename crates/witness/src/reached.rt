// The check 31.
ghost use Rattle.std.specs.Prelude.{List, ℕ};
ghost use Rattle.bits.specs.Tables.{WholeSets, TableOf};
ghost use Rattle.theory.specs.Charts.{Any};
ghost use Rattle.chart.specs.Steps.{StepsOf};
ghost use Rattle.witness.specs.Given.{FirstUnreached};

use bits::Set;
use chart::Chart;
use reach::closure;

// 31: the lowest vertex that the start does not reach. The end need not be reached.
pub(crate) fn unreached(chart: &Chart, next: &[u64]) -> Option<usize>
    requires { WholeSets next.now }
    ensures { (labels : List ℕ)
        → TableOf (Any (StepsOf chart.now.body.now labels)) next.now
        → FirstUnreached chart.now.body.now labels result }
{
    let start = Set::empty().with(chart.start());
    let reached = closure(next, 0, start).with(0);
    let w = Set::below(chart.vertices()).difference(reached).lowest();
    if w == 128 {
        return None;
    }
    Some(w)
}

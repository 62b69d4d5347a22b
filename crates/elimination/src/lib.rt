// Taking out a loop, or several together: the refusals 50 to 52, 56 and 57, and the standing bytes after it.
#![tactic(auto)]

mod loop_list;
mod opening;
mod walk;

ghost use Rattle.std.specs.Prelude.{◌≡◌, length};
ghost use Rattle.theory.specs.Orders.{Listing};
ghost use Rattle.chart.specs.Standing.{TakenOut, TakenOutOf};
ghost use Rattle.elimination.specs.Removals.{removal_of, left_of};
ghost use Rattle.elimination.specs.RemovalAnswers.{Fits};
ghost use Rattle.elimination.specs.Together.{loops_of, together_of, left_together};
ghost use Rattle.elimination.specs.Loops.{Cleared};

use chart::range_of;
use loop_list::{list_fits, loop_at};
use opening::Standing;
use report::Refusal;

// The answer to taking out (vertex, level): 20, 21, 30, 50, 51, 52.
fn answer(
    chart: &[u8],
    labels: &[u8],
    vertex: usize,
    level: usize,
    standing: &[u8],
) -> Result<(), Refusal>
    ensures { result ≡ removal_of chart.now labels.now vertex level standing.now }
{
    Standing::checked(chart, labels, standing)?.ruled(vertex, level)
}

// Of the standing bytes beside these labels, those with this label become 0.
fn clear_in(labels: &[u8], level: usize, standing: &mut [u8])
    requires { length standing.old ≡ length labels.now }
    ensures { Cleared labels.now level standing.old standing.new }
{
    for (i, byte) in standing.iter_mut().enumerate() {
        let gone = labels[i] as usize == level;
        *byte = if gone { 0 } else { *byte };
    }
}

// The standing bytes of the entries of the loop (v, level) become 0.
fn clear(chart: &[u8], labels: &[u8], v: usize, level: usize, standing: &mut [u8])
    requires { Fits chart.now labels.now standing.old }
    ensures { TakenOut chart.now labels.now v level
        standing.old standing.new }
{
    let range = range_of(chart, v);
    let from = range.from;
    let to = range.to;
    clear_in(&labels[from..to], level, &mut standing[from..to]);
}

// Takes out the loop (vertex, level) of a chart with these labels, where the transitions whose byte is 1 stand: the
// bytes of its entries become 0. A refusal changes none.
pub fn remove(
    chart: &[u8],
    labels: &[u8],
    vertex: usize,
    level: usize,
    standing: &mut [u8],
) -> Result<(), Refusal>
    ensures { (result ≡ removal_of chart.now labels.now vertex level standing.old)
        × (standing.new
        ≡ left_of chart.now labels.now vertex level standing.old) }
{
    answer(chart, labels, vertex, level, standing)?;
    clear(chart, labels, vertex, level, standing);
    Ok(())
}

// The answer to taking out the loops of a list: 20, 21, 30, 50, 56, 51, 52, 57.
fn answer_together(
    chart: &[u8],
    labels: &[u8],
    loops: &[u8],
    standing: &[u8],
) -> Result<(), Refusal>
    ensures { result
        ≡ together_of chart.now labels.now loops.now standing.now }
{
    let given = Standing::checked(chart, labels, standing)?;
    if !list_fits(loops) {
        return Err(Refusal::LoopList);
    }
    given.ruled_together(loops)
}

// The standing bytes of the entries of all loops of a list become 0.
fn clear_all(chart: &[u8], labels: &[u8], loops: &[u8], standing: &mut [u8])
    requires { Fits chart.now labels.now standing.old }
    ensures { TakenOutOf chart.now labels.now (Listing (loops_of loops.now))
        standing.old standing.new }
{
    for i in 0..loops.len() / 2 {
        let (v, level) = loop_at(loops, i);
        clear(chart, labels, v, level, standing);
    }
}

// Takes out the loops of a list together, two bytes a loop, its start and its level: the bytes of all their entries
// become 0. A refusal changes none.
pub fn remove_together(
    chart: &[u8],
    labels: &[u8],
    loops: &[u8],
    standing: &mut [u8],
) -> Result<(), Refusal>
    ensures { (result
        ≡ together_of chart.now labels.now loops.now standing.old)
        × (standing.new
        ≡ left_together chart.now labels.now loops.now standing.old) }
{
    answer_together(chart, labels, loops, standing)?;
    clear_all(chart, labels, loops, standing);
    Ok(())
}

// What the panel's firmware calls: include/sequence.h has the prototypes. No function requires
// anything, since nothing checks a C caller.
#![tactic(auto)]

ghost use Rattle.std.specs.Prelude.{◌≡◌, length};
ghost use Rattle.report.specs.Numbers.{verdict_numbers, length_numbers, done_numbers, followed_numbers};
ghost use Rattle.verdict.specs.Verdicts.{verdict_of};
ghost use Rattle.expression.specs.Body.{written_of, buffer_of};
ghost use Rattle.extraction.specs.Extractions.{extracted_of, extracted_left};
ghost use Rattle.elimination.specs.Removals.{removal_of, left_of};
ghost use Rattle.elimination.specs.Together.{together_of, left_together};
ghost use Rattle.theory.specs.Events.{restart, event};
ghost use Rattle.follower.specs.Calls.{lent_on};
ghost use Rattle.follower.specs.Ways.{way_of, way_left};

use report::Numbers;

// The verdict on a yard file: 0 with V, T and the number of loops, or the refusal.
#[unsafe(no_mangle)]
pub extern "C" fn seq_check(file: &[u8]) -> Numbers
    ensures { result ≡ verdict_numbers (verdict_of file.now) }
{
    verdict::check(file).into()
}

// Writes the expression's chart into the lent bytes, those past it being kept: 0 with its length
// in bytes, or the refusal, which changes none of them.
#[unsafe(no_mangle)]
pub extern "C" fn seq_write_chart(nodes: &[u8], out: &mut [u8]) -> Numbers
    ensures { (result ≡ length_numbers (written_of nodes.now (length out.old)))
        × (out.new ≡ buffer_of nodes.now out.old) }
{
    expression::write_chart(nodes, out).into()
}

// Writes the expression of a chart with these labels into the lent bytes, those past it being kept: 0 with
// its length in bytes, or the refusal, which changes none of them.
#[unsafe(no_mangle)]
pub extern "C" fn seq_write_expression(chart: &[u8], labels: &[u8], out: &mut [u8]) -> Numbers
    ensures { (result ≡ length_numbers
        (extracted_of chart.now labels.now (length out.old)))
        × (out.new ≡ extracted_left chart.now labels.now out.old) }
{
    extraction::write_expression(chart, labels, out).into()
}

// Takes out the loop (vertex, level) of a chart with these labels, where the transitions whose byte
// is 1 stand: 0 where the bytes of its entries have become 0, or the refusal, which changes none.
#[unsafe(no_mangle)]
pub extern "C" fn seq_remove(
    chart: &[u8],
    labels: &[u8],
    vertex: usize,
    level: usize,
    standing: &mut [u8],
) -> Numbers
    ensures { (result ≡ done_numbers
        (removal_of chart.now labels.now vertex level standing.old))
        × (standing.new
        ≡ left_of chart.now labels.now vertex level standing.old) }
{
    elimination::remove(chart, labels, vertex, level, standing).into()
}

// Takes out several loops together, two bytes each: 0 where the bytes of all their entries have become
// 0, or the refusal, which changes none.
#[unsafe(no_mangle)]
pub extern "C" fn seq_remove_together(
    chart: &[u8],
    labels: &[u8],
    loops: &[u8],
    standing: &mut [u8],
) -> Numbers
    ensures { (result ≡ done_numbers
        (together_of chart.now labels.now loops.now standing.old))
        × (standing.new
        ≡ left_together chart.now labels.now loops.now standing.old) }
{
    elimination::remove_together(chart, labels, loops, standing).into()
}

// A restart over a chart, of a state of seventeen bytes: 0 with 1 for taken, whether the end is in the
// set and how many actions are offered, or the refusal, which changes no byte of the state.
#[unsafe(no_mangle)]
pub extern "C" fn seq_restart(chart: &[u8], state: &mut [u8]) -> Numbers
    ensures { (result ≡ followed_numbers (lent_on chart.now state.old restart).0)
        × (state.new ≡ (lent_on chart.now state.old restart).1) }
{
    follower::restart_lent(chart, state).into()
}

// An event likewise: 1 for taken, 0 for not possible, which spoils the state, 2 for spoilt.
#[unsafe(no_mangle)]
pub extern "C" fn seq_event(chart: &[u8], state: &mut [u8], action: u8) -> Numbers
    ensures { (result ≡ followed_numbers (lent_on chart.now state.old (event action)).0)
        × (state.new ≡ (lent_on chart.now state.old (event action)).1) }
{
    follower::event_lent(chart, state, action).into()
}

// Writes the shortest list of events after which the end is in the set into the lent bytes, those past
// it being kept: 0 with its length, or the refusal, which changes none of them.
#[unsafe(no_mangle)]
pub extern "C" fn seq_shortest_way(chart: &[u8], state: &[u8], out: &mut [u8]) -> Numbers
    ensures { (result ≡ length_numbers (way_of chart.now state.now (length out.old)))
        × (out.new ≡ way_left chart.now state.now out.old) }
{
    follower::shortest_way(chart, state, out).into()
}

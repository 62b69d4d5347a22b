// The shortest way from a set of vertices to the end: the vertices by how many steps lead there, until the end is among
// them; of these, from the end back, those on a shortest path; then at each place of the list the lowest action that leads
// on along these.
ghost use Rattle.std.specs.Prelude.{◌≡◌, ◌≤◌, ◌<◌, length};
ghost use Rattle.bits.specs.Sets.{Members};
ghost use Rattle.bits.specs.Tables.{row_of};
ghost use Rattle.chart.specs.Images.{LeadsInto};
ghost use Rattle.follower.specs.Layers.{ReadRows, LayersFrom, Leading, Narrowed, Leads, OnwardBy, Writes, WayFrom};

use bits::Set;
use bits::tables::{put_row, row};
use chart::Chart;
use report::Refusal;

// The targets of the vertices of a layer, and each vertex's put into its set of a table.
fn read_rows(chart: &Chart<'_>, layer: Set, rows: &mut [u64; 256]) -> Set
    requires { length rows.old ≡ 256 }
    ensures { ReadRows chart.now.body.now layer rows.old result rows.new }
{
    let mut all = Set::empty();
    for u in layer.members() {
        let targets = chart.targets(u);
        put_row(rows, u, targets);
        all = all.union(targets);
    }
    all
}

// How many steps lead from a set to the end, if any do. Set k of the layers becomes the vertices that are first reached in
// k steps, up to that number, and the rows have the targets of those that are reached in fewer.
fn layers_from(
    chart: &Chart<'_>,
    set: Set,
    layers: &mut [u64; 256],
    rows: &mut [u64; 256],
) -> Option<usize>
    requires { (length layers.old ≡ 256) × (length rows.old ≡ 256) }
    ensures { LayersFrom chart.now.body.now set layers.new rows.new result }
{
    let mut layer = set;
    let mut seen = set;
    for k in 0..chart.vertices() {
        put_row(layers, k, layer);
        if layer.contains(0) {
            return Some(k);
        }
        layer = read_rows(chart, layer, rows).difference(seen);
        seen = seen.union(layer);
    }
    None
}

// The vertices of a layer that lead into another.
fn leading(rows: &[u64; 256], layer: Set, aim: Set) -> Set
    requires { length rows.now ≡ 256 }
    ensures { Members (Leading rows.now layer aim) result }
{
    let mut kept = Set::empty();
    for u in layer.members() {
        let met = row(rows, u).intersection(aim);
        kept = kept.with_if(u, !met.is_empty());
    }
    kept
}

// Of each layer only those stay that are on a path to the end, which is in the last.
fn narrow(rows: &[u64; 256], d: usize, layers: &mut [u64; 256])
    requires { (length rows.now ≡ 256) × (d < 128) × (length layers.old ≡ 256) }
    ensures { Narrowed rows.now d layers.old layers.new }
{
    let mut aim = Set::empty().with(0);
    put_row(layers, d, aim);
    for k in (0..d).rev() {
        aim = leading(rows, row(layers, k), aim);
        put_row(layers, k, aim);
    }
}

// The targets of an action that are in the next layer. Where that has one vertex only, it is this.
fn onward(chart: &Chart<'_>, near: Set, action: usize, aim: Set) -> Set
    requires { LeadsInto chart.now.body.now near aim action }
    ensures { Members (OnwardBy chart.now.body.now near aim action) result }
{
    if aim.without_lowest().is_empty() {
        return aim;
    }
    chart.image(near, action).intersection(aim)
}

// Writes the lowest list of d actions that leads through the layers to the end.
fn write_list(chart: &Chart<'_>, layers: &[u64; 256], d: usize, out: &mut [u8])
    requires { Leads chart.now.body.now d layers.now × (d < 128) × (d ≤ length out.old) }
    ensures { Writes chart.now.body.now (row_of layers.now 0) d
        out.old out.new }
{
    let mut near = row(layers, 0);
    for i in 0..d {
        let aim = row(layers, i + 1);
        let action = chart.lowest_into(near, aim);
        out[i] = action as u8;
        near = onward(chart, near, action, aim);
    }
}

// 55 and 54 of a set, and the list.
pub(crate) fn way_from(chart: &Chart<'_>, set: Set, out: &mut [u8]) -> Result<usize, Refusal>
    ensures { WayFrom chart.now.body.now set out.old result out.new }
{
    let mut layers = [0u64; 256];
    let mut rows = [0u64; 256];
    let Some(d) = layers_from(chart, set, &mut layers, &mut rows) else {
        return Err(Refusal::NoWay);
    };
    if out.len() < d {
        return Err(Refusal::OutputLength(d));
    }
    narrow(&rows, d, &mut layers);
    write_list(chart, &layers, d, out);
    Ok(d)
}

// Yard files: the four records [1-4], and the whole check.
#![tactic(auto)]

ghost use Rattle.std.specs.Prelude.{◌≡◌, ◌+◌, ◌≤◌, ◌<◌, length};
ghost use Rattle.expression.specs.Body.{body_of};
ghost use Rattle.expression.specs.Table.{check_of};
ghost use Rattle.expression.specs.Targets.{Targets};
ghost use Rattle.bisimulation.specs.Relations.{relation_of};
ghost use Rattle.bisimulation.specs.Answers.{PassOutside};
ghost use Rattle.verdict.specs.Files.{record_stage, records_of, offset_of, body_at};
ghost use Rattle.verdict.specs.Verdicts.{BothPass, drawn_verdict, verdict_of, ComeToPairs};

use bisimulation::{Relation, Steps};
use bits::{Set, read_u16};
use chart::{Chart, fill_begins};
use report::{Accepted, Refusal};

// 2 and 3 of the record of this kind at an offset.
fn record(file: &[u8], kind: usize, at: usize) -> Result<(), Refusal>
    requires { at ≤ length file.now }
    ensures { result ≡ record_stage file.now kind at }
{
    if file.len() - at < 4 {
        return Err(Refusal::Record(kind));
    }
    let found = read_u16(file, at + 2);
    if found != kind {
        return Err(Refusal::RecordKind(kind, found));
    }
    if file.len() - at - 4 < read_u16(file, at) {
        return Err(Refusal::Record(kind));
    }
    Ok(())
}

// The refusals 1 to 4.
fn records(file: &[u8]) -> Result<(), Refusal>
    ensures { result ≡ records_of file.now }
{
    if 43536 < file.len() {
        return Err(Refusal::File);
    }
    let mut at: usize = 0;
    for kind in 1..5 {
        record(file, kind, at)?;
        at = at + 4 + read_u16(file, at);
    }
    if at < file.len() {
        return Err(Refusal::FileOffset(at));
    }
    Ok(())
}

// Where record k begins, from 0.
fn offset(file: &[u8], k: usize) -> usize
    requires { (records_of file.now ≡ Ok tt) × (k < 4) }
    ensures { result ≡ offset_of file.now k }
{
    let mut at: usize = 0;
    for i in 0..k {
        prove!(i < 4);
        at = at + 4 + read_u16(file, at);
    }
    at
}

// The body of record k, from 0, as a part of the file.
fn body(file: &[u8], k: usize) -> &[u8]
    requires { (records_of file.now ≡ Ok tt) × (k < 4) }
    ensures { result.now ≡ body_at file.now k }
{
    let at = offset(file, k);
    let start = at + 4;
    let end = start + read_u16(file, at);
    &file[start..end]
}

// The refusals 43 to 45 where every pair of a chart vertex outside the suspects passes: the steps of the expression's
// chart are put in order, since the place of 44 is that of a transition.
fn search_pairs(
    nodes: &[u8],
    chart: &Chart,
    relation: &Relation,
    suspects: Set,
) -> Result<(), Refusal>
    requires { ComeToPairs nodes.now relation.now.rows chart.now.body.now relation.now.bytes.now
        × PassOutside (body_of nodes.now) chart.now.body.now relation.now.bytes.now suspects }
    ensures { result ≡ relation_of (body_of nodes.now) chart.now.body.now relation.now.bytes.now }
{
    let mut keys = [0usize; 128];
    let mut words = [0u64; 128];
    let count = expression::number_steps(nodes, &mut keys, &mut words);
    let steps = Steps {
        keys: &keys,
        words: &words,
        count,
        relation: *relation,
    };
    bisimulation::check_pairs(&steps, chart, suspects)
}

// The refusals 43 to 45, against the expression's chart, where 40 to 42 pass.
fn check_listed_pairs(
    nodes: &[u8],
    targets: &[u8; 128],
    chart: &Chart,
    relation: &Relation,
) -> Result<(), Refusal>
    requires { ComeToPairs nodes.now relation.now.rows chart.now.body.now relation.now.bytes.now × Targets nodes.now targets.now }
    ensures { result ≡ relation_of (body_of nodes.now) chart.now.body.now relation.now.bytes.now }
{
    let mut keys = [0usize; 128];
    let mut words = [0u64; 128];
    let count = expression::list_steps(nodes, targets, &mut keys, &mut words);
    let steps = Steps {
        keys: &keys,
        words: &words,
        count,
        relation: *relation,
    };
    let suspects = bisimulation::doubtful(&steps, chart);
    if suspects.is_empty() {
        return Ok(());
    }
    search_pairs(nodes, chart, relation, suspects)
}

// The refusals 40 to 45, against the expression's chart, which is not written.
fn check_relation(
    nodes: &[u8],
    targets: &[u8; 128],
    chart: &Chart,
    relation: &[u8],
) -> Result<(), Refusal>
    requires { (check_of nodes.now ≡ Ok tt) × Targets nodes.now targets.now }
    ensures { result ≡ relation_of (body_of nodes.now) chart.now.body.now relation.now }
{
    let n = nodes.len() / 4;
    bisimulation::opening(n + 1, n, chart.body, relation)?;
    let relation = Relation {
        bytes: relation,
        rows: n + 1,
    };
    check_listed_pairs(nodes, targets, chart, &relation)
}

// The checks of the labelling and of the relation, where the expression and the chart pass. A function of its own: one
// clears the room of its tables as it begins, and a file that is refused before needs none.
fn check_drawn(
    nodes: &[u8],
    targets: &[u8; 128],
    drawn: &[u8],
    labels: &[u8],
    relation: &[u8],
) -> Result<Accepted, Refusal>
    requires { BothPass nodes.now drawn.now × Targets nodes.now targets.now }
    ensures { result ≡ drawn_verdict nodes.now drawn.now labels.now relation.now }
{
    let mut begins = [0; 129];
    fill_begins(drawn, &mut begins);
    let chart = Chart::new(drawn, &begins);
    let loops = witness::check(&chart, labels)?;
    check_relation(nodes, targets, &chart, relation)?;
    Ok(Accepted {
        vertices: chart.vertices(),
        transitions: chart.count(),
        loops,
    })
}

// The verdict on a yard file: what is counted of it where it is accepted, or the first check that fails.
pub fn check(file: &[u8]) -> Result<Accepted, Refusal>
    ensures { result ≡ verdict_of file.now }
{
    records(file)?;
    let nodes = body(file, 0);
    let mut targets = [255u8; 128];
    expression::check_with_targets(nodes, &mut targets)?;
    let drawn = body(file, 1);
    chart::check(drawn)?;
    check_drawn(nodes, &targets, drawn, body(file, 2), body(file, 3))
}

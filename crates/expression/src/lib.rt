// Kind 1: the checks of an expression's nodes, the steps of its chart as numbers, and the chart written as a chart
// body.
#![tactic(auto)]

mod body;
mod kind;
mod nodes;
mod ranks;
mod targets;
mod tree;
mod words;

ghost use Rattle.std.specs.Prelude.{◌≡◌, length, replicate};
ghost use Rattle.expression.specs.Table.{check_of};
ghost use Rattle.expression.specs.Targets.{Targets, TargetsAfter};
ghost use Rattle.expression.specs.Body.{body_of, written_of, buffer_of};
ghost use Rattle.chart.specs.Numbered.{Lists, Numbered};

use body::write_body;
pub use kind::{Kind, UnknownKind};
use nodes::Table;
use ranks::AimedTree;
use report::Refusal;
use targets::{find_targets, try_find_targets};
use tree::Tree;
use words::{RankedTree, count_transitions};

// The checks of an expression's nodes: 10, 11, 12.
pub fn check(nodes: &[u8]) -> Result<(), Refusal>
    ensures { result ≡ check_of nodes.now }
{
    let table = Table::new(nodes)?;
    table.check()
}

// The same checks, and where every node of nodes that pass leads, into an array of 255: found in one pass. Only a
// refusal needs `Table::check`, which finds its place; the array is then 255 again.
pub fn check_with_targets(nodes: &[u8], targets: &mut [u8; 128]) -> Result<(), Refusal>
    requires { targets.old ≡ replicate 128 255 }
    ensures { (result ≡ check_of nodes.now)
        × TargetsAfter nodes.now result targets.old targets.new }
{
    let table = Table::new(nodes)?;
    if try_find_targets(&table, targets) {
        return Ok(());
    }
    *targets = [255u8; 128];
    table.check()
}

// Lists the steps of the expression's chart as its leaves come: the keys, their number, and a word for each vertex,
// which has no bit before. The check goes by them.
pub fn list_steps<'a>(
    nodes: &'a [u8],
    targets: &'a [u8; 128],
    keys: &mut [usize; 128],
    words: &mut [u64; 128],
) -> usize
    requires { (check_of nodes.now ≡ Ok tt)
        × Targets nodes.now targets.now
        × (length keys.old ≡ 128)
        × (words.old ≡ replicate 128 0) }
    ensures { Lists (body_of nodes.now) keys.new words.new result }
{
    let tree = Tree::new(nodes);
    let aimed = AimedTree { tree, targets };
    let mut ranks = [0u8; 128];
    let m = aimed.list_leaves(keys, &mut ranks);
    let ranked = RankedTree {
        tree,
        ranks: &ranks,
    };
    ranked.first_words(words);
    m
}

// Numbers the steps of the expression's chart, into arrays of 0: the same in order, each once, so that there is one
// answer.
fn number_into_zeros(nodes: &[u8], keys: &mut [usize; 128], words: &mut [u64; 128]) -> usize
    requires { (check_of nodes.now ≡ Ok tt)
        × (keys.old ≡ replicate 128 0)
        × (words.old ≡ replicate 128 0) }
    ensures { Numbered (body_of nodes.now) keys.new words.new result }
{
    let tree = Tree::new(nodes);
    let mut targets = [0u8; 128];
    find_targets(&tree, &mut targets);
    let aimed = AimedTree {
        tree,
        targets: &targets,
    };
    let m = aimed.collect_keys(keys);
    let mut ranks = [0u8; 128];
    aimed.fill_ranks(keys, m, &mut ranks);
    let ranked = RankedTree {
        tree,
        ranks: &ranks,
    };
    ranked.first_words(words);
    m
}

// The same into any arrays. The place of a refusal goes by them.
pub fn number_steps(nodes: &[u8], keys: &mut [usize; 128], words: &mut [u64; 128]) -> usize
    requires { check_of nodes.now ≡ Ok tt }
    ensures { Numbered (body_of nodes.now) keys.new words.new result }
{
    *keys = [0usize; 128];
    *words = [0u64; 128];
    number_into_zeros(nodes, keys, words)
}

// The chart of nodes that pass: 54, or the body. The transitions are counted before anything is
// written, since a refusal changes nothing.
fn write_passed(nodes: &[u8], out: &mut [u8]) -> Result<usize, Refusal>
    requires { check_of nodes.now ≡ Ok tt }
    ensures { (result ≡ written_of nodes.now (length out.old))
        × (out.new ≡ buffer_of nodes.now out.old) }
{
    let n = Tree::new(nodes).node_count();
    let mut keys = [0usize; 128];
    let mut words = [0u64; 128];
    number_into_zeros(nodes, &mut keys, &mut words);
    let t = count_transitions(&words, n);
    let needed = 4 + 4 * t;
    if out.len() < needed {
        return Err(Refusal::OutputLength(needed));
    }
    write_body(out, n, t, &keys, &words);
    Ok(needed)
}

// Writes the expression's chart into the lent bytes, those past it being kept. The answer is its
// length in bytes, or the first refusal of 10, 11, 12 and 54.
pub fn write_chart(nodes: &[u8], out: &mut [u8]) -> Result<usize, Refusal>
    ensures { (result ≡ written_of nodes.now (length out.old))
        × (out.new ≡ buffer_of nodes.now out.old) }
{
    check(nodes)?;
    write_passed(nodes, out)
}

// Where every node leads, of nodes that are known to be a tree, or while it is found out whether they are.
ghost use Rattle.std.specs.Prelude.{◌≡◌, true, false, ◌↔◌, ◌<◌, ◌≤◌, replicate};
ghost use Rattle.expression.specs.Kinds.{byte_of};
ghost use Rattle.expression.specs.Table.{node, count, WellFormed, op_of};
ghost use Rattle.expression.specs.Targets.{aim_left, aim, Targets, Ready, Turn, TargetsAfter};

use super::nodes::Table;
use super::tree::Tree;
use crate::Kind;

// The vertex after the left operand of node k, which has operands: document 01's climb from there goes to the right
// operand of a product, to a star itself, and on from a sum.
fn left_target(kind: Kind, k: usize, right: usize, own: u8) -> u8
    requires { (k < 128) × (right < 128) }
    ensures { result ≡ aim_left (op_of (byte_of kind)) k right own }
{
    match kind {
        Kind::Sum => own,
        Kind::Product => (right + 1) as u8,
        _ => (k + 1) as u8,
    }
}

// Where the operands of node k lead, from where it leads itself.
fn aim_operands(tree: &Tree<'_>, k: usize, targets: &mut [u8; 128])
    requires { k < count tree.now.nodes.now }
    ensures { targets.new ≡ aim k (node tree.now.nodes.now k) targets.old }
{
    let kind = tree.kind(k);
    if !kind.has_operands() {
        return;
    }
    let left = tree.left(k);
    let right = tree.right(k);
    let own = targets[k];
    targets[left] = left_target(kind, k, right, own);
    targets[right] = own;
}

// Where every node leads, into an array of 0, which a caller lends since one handed out would be copied twice: the root
// to the end, and so on down.
pub(crate) fn find_targets(tree: &Tree<'_>, targets: &mut [u8; 128])
    requires { targets.old ≡ replicate 128 0 }
    ensures { Targets tree.now.nodes.now targets.new }
{
    for k in (0..tree.node_count()).rev() {
        aim_operands(tree, k, targets);
    }
}

// Where the operands of node k lead, of nodes that may be no tree. 255 is no target: a node has it until a node above
// has had it as an operand. (Options would make the array twice as long, in a pass that each check takes.) True exactly
// where node k is well formed and has a target, and its operands are two nodes that have none.
fn try_aim_operands(table: &Table<'_>, k: usize, targets: &mut [u8; 128]) -> bool
    requires { k < count table.now.nodes.now }
    ensures { (result ≡ true → Turn table.now.nodes.now k targets.old targets.new)
        × (result ≡ false → Ready table.now.nodes.now k targets.old → ⊥) }
{
    if !table.node_ok(k) {
        return false;
    }
    let own = targets[k];
    if own == 255 {
        return false;
    }
    let kind = table.kind(k);
    if !kind.has_operands() {
        return true;
    }
    let left = table.left(k);
    let right = table.right(k);
    let fresh = (targets[left] == 255) & (targets[right] == 255) & (left != right);
    targets[left] = left_target(kind, k, right, own);
    targets[right] = own;
    fresh
}

// Where every node leads, into an array of 255. True exactly where 11 and 12 pass.
pub(crate) fn try_find_targets(table: &Table<'_>, targets: &mut [u8; 128]) -> bool
    requires { targets.old ≡ replicate 128 255 }
    ensures { ((result ≡ true) ↔ WellFormed table.now.nodes.now)
        × (result ≡ true → TargetsAfter table.now.nodes.now (Ok tt) targets.old targets.new) }
{
    let n = table.node_count();
    targets[n - 1] = 0;
    for k in (0..n).rev() {
        if !try_aim_operands(table, k, targets) {
            return false;
        }
    }
    true
}

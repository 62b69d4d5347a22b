// A table of nodes: their fields, and the checks 10, 11 and 12.
ghost use Rattle.std.specs.Prelude.{◌≡◌, true, not, ◌==◌, ◌<◌, ◌≤◌, position, take, MatchOption, MatchResult};
ghost use Rattle.expression.specs.Kinds.{byte_of};
ghost use Rattle.expression.specs.Table.{kind_of, left_of, right_of, node, is_good, count, length_ok, malformed, check_of, Sized, NodeAt};
ghost use Rattle.expression.specs.Uses.{tally, Tallied, AtMost};

use crate::Kind;
use bits::byte;
use report::Refusal;

// 10: 1 to 127 nodes of four bytes.
fn length_ok(nodes: &[u8]) -> bool
    ensures { result ≡ length_ok nodes.now }
{
    (0 < nodes.len()) & (nodes.len() <= 508) & (nodes.len() % 4 == 0)
}

// 1 to 127 nodes, which need not be well formed.
#[derive(Clone, Copy)]
pub(crate) struct Table<'a> {
    pub nodes: &'a [u8],
    pub ghost sized: { Sized nodes.now },
}

impl<'a> Table<'a> {
    // Some bytes as a table, or 10.
    pub(crate) fn new(nodes: &'a [u8]) -> Result<Table<'a>, Refusal>
        ensures { MatchResult result
            (λ table. table.nodes.now ≡ nodes.now)
            (λ refusal. Err refusal ≡ check_of nodes.now) }
    {
        if !length_ok(nodes) {
            return Err(Refusal::NodesLength(nodes.len()));
        }
        Ok(Table { nodes })
    }

    // Four bytes a node; the last is the root.
    pub(crate) fn node_count(&self) -> usize
        ensures { result ≡ count self.now.nodes.now }
    {
        self.nodes.len() / 4
    }

    // 11 of one node: its fields fit its kind, and its operands are lower.
    pub(crate) fn node_ok(&self, k: usize) -> bool
        requires { k < count self.now.nodes.now }
        ensures { result ≡ is_good (node self.now.nodes.now k) }
    {
        let Ok(kind) = Kind::try_from(self.nodes[4 * k]) else {
            return false;
        };
        let action = byte(self.nodes, 4 * k + 1);
        let left = byte(self.nodes, 4 * k + 2);
        let right = byte(self.nodes, 4 * k + 3);
        match kind {
            Kind::Deadlock => (action == 0) & (left == 0) & (right == 0),
            Kind::Action => (0 < action) & (left == 0) & (right == 0),
            Kind::Sum | Kind::Product | Kind::Star => (action == 0) & (left < k) & (right < k),
        }
    }

    // The fields of a well-formed node. Its byte stands for a kind, so that the other value is never taken: `unwrap` would
    // have the byte tested at each read.
    pub(crate) fn kind(&self, k: usize) -> Kind
        requires { NodeAt self.now.nodes.now k }
        ensures { byte_of result ≡ kind_of self.now.nodes.now k }
    {
        Kind::try_from(self.nodes[4 * k]).unwrap_or(Kind::Star)
    }

    pub(crate) fn left(&self, k: usize) -> usize
        requires { NodeAt self.now.nodes.now k × (2 ≤ kind_of self.now.nodes.now k) }
        ensures { (result ≡ left_of self.now.nodes.now k) × (result < k) }
    {
        byte(self.nodes, 4 * k + 2)
    }

    pub(crate) fn right(&self, k: usize) -> usize
        requires { NodeAt self.now.nodes.now k × (2 ≤ kind_of self.now.nodes.now k) }
        ensures { (result ≡ right_of self.now.nodes.now k) × (result < k) }
    {
        byte(self.nodes, 4 * k + 3)
    }

    // 11: the lowest malformed node.
    fn lowest_malformed(&self) -> Option<usize>
        ensures { MatchOption result
            (count self.now.nodes.now ≤ malformed self.now.nodes.now)
            (λ k. (k ≡ malformed self.now.nodes.now) × (k < count self.now.nodes.now)) }
    {
        for k in 0..self.node_count() {
            if !self.node_ok(k) {
                return Some(k);
            }
        }
        None
    }

    // Adds the uses that node k makes of its operands.
    fn add_uses(&self, k: usize, uses: &mut [u8; 128])
        requires { NodeAt self.now.nodes.now k × AtMost 252 uses.old }
        ensures { uses.new ≡ tally (node self.now.nodes.now k) uses.old }
    {
        if self.kind(k).has_operands() {
            uses[self.left(k)] += 1;
            uses[self.right(k)] += 1;
        }
    }

    // How often each node is an operand, in one pass over the nodes.
    fn count_uses(&self) -> [u8; 128]
        requires { count self.now.nodes.now ≤ malformed self.now.nodes.now }
        ensures { Tallied self.now.nodes.now (count self.now.nodes.now) result }
    {
        let mut uses = [0u8; 128];
        for k in 0..self.node_count() {
            self.add_uses(k, &mut uses);
        }
        uses
    }

    // 11, then 12.
    pub(crate) fn check(&self) -> Result<(), Refusal>
        ensures { result ≡ check_of self.now.nodes.now }
    {
        if let Some(k) = self.lowest_malformed() {
            return Err(Refusal::Node(k));
        }
        let uses = self.count_uses();
        if let Some(j) = lowest_misused(&uses, self.node_count() - 1) {
            return Err(Refusal::NodeUses(j, uses[j] as usize));
        }
        Ok(())
    }
}

// 12: the lowest of the first m nodes that is not an operand exactly once.
fn lowest_misused(uses: &[u8; 128], m: usize) -> Option<usize>
    requires { m < 128 }
    ensures { result ≡ position (λ count. not (count == 1)) (take m uses.now) }
{
    uses[..m].iter().position(|count| *count != 1)
}

// The first actions of every node as the bits of a word: bit i for the key of rank i.
ghost use Rattle.std.specs.Prelude.{◌≡◌, ◌<◌, ◌≤◌, ◌^◌, length, replicate, take, drop, sum_by};
ghost use Rattle.theory.specs.Nodes.{first};
ghost use Rattle.expression.specs.Kinds.{byte_of};
ghost use Rattle.expression.specs.Table.{kind_of, node, count};
ghost use Rattle.expression.specs.Words.{LeafRanks, RanksOf, JoinedWord, Filled, Worded};
ghost use Rattle.bits.specs.Counts.{bits_below};

use super::tree::Tree;
use crate::Kind;

// A tree with a rank for each leaf, which is that of a bit.
#[derive(Clone, Copy)]
pub(crate) struct RankedTree<'a> {
    pub tree: Tree<'a>,
    pub ranks: &'a [u8; 128],
    pub ghost ranked: { LeafRanks tree.nodes.now ranks.now },
}

// The word of a node from those of its operands: of both for a sum and a star, of the left one for a product.
fn joined_word(kind: Kind, left: u64, right: u64) -> u64
    ensures { JoinedWord (byte_of kind) left right result }
{
    if kind == Kind::Product {
        return left;
    }
    bits::bit_or(left, right)
}

impl<'a> RankedTree<'a> {
    // The word of a node without operands: no bit for a deadlock, that of its rank for an action.
    fn leaf_word(&self, k: usize) -> u64
        requires { (k < count self.now.tree.nodes.now) × (kind_of self.now.tree.nodes.now k < 2) }
        ensures { RanksOf self.now.ranks.now (first (node self.now.tree.nodes.now) k) result }
    {
        if self.tree.kind(k) == Kind::Deadlock {
            return 0;
        }
        bits::with_bit(0, self.ranks[k] as usize)
    }

    // Fills the words of node k and of the nodes below it, each from those of its operands, at the vertex of each; the
    // word of node k. The recursion ends because operands are lower. This stands within the other: a call for a node
    // without operands would cost more than its word.
    #[cycle(fill_words)]
    #[inline(always)]
    fn fill_words(&self, k: usize, words: &mut [u64; 128]) -> u64
        requires { (k < count self.now.tree.nodes.now) × (length words.old ≡ 128) }
        ensures { Filled self.now.tree.nodes.now self.now.ranks.now k words.old words.new result }
    {
        if self.tree.kind(k).has_operands() {
            return self.fill_joined(k, words);
        }
        let word = self.leaf_word(k);
        words[k + 1] = word;
        word
    }

    // The same of a node with operands.
    #[cycle(fill_words)]
    fn fill_joined(&self, k: usize, words: &mut [u64; 128]) -> u64
        requires { (k < count self.now.tree.nodes.now)
            × (2 ≤ kind_of self.now.tree.nodes.now k)
            × (length words.old ≡ 128) }
        ensures { Filled self.now.tree.nodes.now self.now.ranks.now k words.old words.new result }
    {
        let kind = self.tree.kind(k);
        let left = self.fill_words(self.tree.left(k), words);
        let right = self.fill_words(self.tree.right(k), words);
        let word = joined_word(kind, left, right);
        words[k + 1] = word;
        word
    }

    // The words of the vertices, from no bits: vertex k + 1 has that of node k, and the end has no bit. Every node is
    // below the root.
    pub(crate) fn first_words(&self, words: &mut [u64; 128])
        requires { words.old ≡ replicate 128 0 }
        ensures { Worded self.now.tree.nodes.now self.now.ranks.now words.new }
    {
        self.fill_words(self.tree.node_count() - 1, words);
    }
}

// The number of the chart's transitions: that of the bits of the words of its n nodes' vertices.
pub(crate) fn count_transitions(words: &[u64; 128], n: usize) -> usize
    requires small { n < 128 }
    requires fits { sum_by (λ word. bits_below word 64) (take n (drop 1 words.now)) < 2 ^ 64 }
    ensures { result ≡ sum_by (λ word. bits_below word 64) (take n (drop 1 words.now)) }
{
    words[1..n + 1]
        .iter()
        .map(|word| bits::count_bits(*word))
        .sum()
}

// The writer of a text and the writer of a sum, which call each other (document 02, C-14). Nodes are written from `count`
// on and stay below `limit`: what is still to come after a text is set aside before it is written. So the number of nodes
// that are left falls at each call, and a text that is too long is given up after 127 of them. The two stay numbers by
// themselves, since each call works out both anew.
ghost use Rattle.std.specs.Prelude.{◌≡◌, true, ◌↔◌, ℕ, suc, ◌+◌, ◌≤◌, ◌<◌};
ghost use Rattle.theory.specs.Texts.{Text};
ghost use Rattle.chart.specs.Bodies.{vertices_of};
ghost use Rattle.expression.specs.Kinds.{byte_of};
ghost use Rattle.expression.specs.Table.{parse};
ghost use Rattle.extraction.specs.Writers.{half_of, drawing, LabelIn, NodeRoom, Put, Timed, Added, Wrote, WholeSum};

use expression::Kind;
use witness::Labelling;

// The transitions of a vertex that are branches, with the label 0, or those that are entries.
#[derive(Clone, Copy)]
enum Half {
    Branches,
    Entries,
}

impl Half {
    // Whether a transition with this label is one of them.
    fn has(self, label: u8) -> bool
        ensures { (result ≡ true) ↔ LabelIn (half_of self) label }
    {
        // not a `match`: the compiler then cuts its number to a bit anew for each transition
        u8::from(label != 0) == self as u8
    }
}

// Room for 127 nodes, four bytes each.
#[derive(Drop)]
pub(crate) struct Nodes {
    pub bytes: [u8; 508],
}

impl Nodes {
    // Node `at` of the table.
    fn put(&mut self, at: usize, kind: Kind, action: u8, left: usize, right: usize)
        requires { (at < 127) × (left < 128) × (right < 128) }
        ensures { Put at (parse at (byte_of kind) action left right) self.old.bytes self.new.bytes }
    {
        // not `copy_from_slice` of an array: so a word is built first, at 3.8 in 100 more instructions (row one-text)
        let p = 4 * at;
        self.bytes[p] = u8::from(kind);
        self.bytes[p + 1] = action;
        self.bytes[p + 2] = left as u8;
        self.bytes[p + 3] = right as u8;
    }

    // The product of the action at node `leaf` and the text after it, where there is one; the next node.
    fn put_product(&mut self, leaf: usize, next: usize) -> usize
        requires { (leaf < next) × (next ≤ 127) × (suc leaf < next → next < 127) }
        ensures { Timed leaf next self.old.bytes self.new.bytes result }
    {
        if leaf + 1 == next {
            return next;
        }
        self.put(next, Kind::Product, 0, leaf, next - 1);
        next + 1
    }

    // The sum of what is written from `count` on and of the item from node `item` on, where the item is not the first; the
    // next node.
    fn put_sum(&mut self, count: usize, item: usize, next: usize) -> usize
        requires { (count ≤ item) × (item < next) × (next ≤ 127) × (count < item → next < 127) }
        ensures { Added count item next self.old.bytes self.new.bytes result }
    {
        if count == item {
            return next;
        }
        self.put(next, Kind::Sum, 0, item - 1, next - 1);
        next + 1
    }
}

// The limit of an item: a sum's node is set aside where the item is not the first.
fn item_limit(count: usize, at: usize, limit: usize) -> usize
    requires { (count ≤ at) × (at ≤ limit) }
    ensures { (count ≡ at → result ≡ limit) × (count < at → result + 1 ≡ limit) }
{
    if count == at { limit } else { limit - 1 }
}

// A labelling, and the nodes of its text as far as they are written.
#[derive(Drop)]
pub(crate) struct Writer<'a> {
    pub labelling: Labelling<'a>,
    pub nodes: Nodes,
}

impl<'a> Writer<'a> {
    // The sum of the items of w's entries, or of its branches, back to `back`; the next node, where there is room.
    #[cycle(write_sum_write_text)]
    fn write_sum(
        &mut self,
        half: Half,
        w: usize,
        back: usize,
        count: usize,
        limit: usize,
    ) -> Option<usize>
        requires { (w < vertices_of self.old.labelling.chart.now.body.now)
            × NodeRoom count limit
            × (count ≤ limit) }
        ensures kept { self.new.labelling ≡ self.old.labelling }
        ensures wrote { Wrote (WholeSum (drawing self.old.labelling) (half_of half) w back)
            count limit self.old.nodes.bytes self.new.nodes.bytes result }
    {
        let labelling = self.labelling;
        let range = labelling.chart.range(w);
        let labels = &labelling.labels[range.from..range.to];
        let mut at = count;
        for (row, label) in labelling.chart.rows(w).iter().zip(labels) {
            if half.has(*label) {
                let end = item_limit(count, at, limit);
                if at >= end {
                    return None;
                }
                self.nodes.put(at, Kind::Action, row[1], 0, 0);
                let target = usize::from(row[2]);
                let mut next = at + 1;
                if target != back {
                    next = self.write_text(target, back, next, end - 1)?;
                }
                next = self.nodes.put_product(at, next);
                at = self.nodes.put_sum(count, at, next);
            }
        }
        if count < at {
            return Some(at);
        }
        if at >= limit {
            return None;
        }
        self.nodes.put(at, Kind::Deadlock, 0, 0, 0);
        Some(at + 1)
    }

    // The text of w back to `back`; the next node, where there is room. It has a star's node, and one at least on each
    // side.
    #[cycle(write_sum_write_text)]
    pub(crate) fn write_text(
        &mut self,
        w: usize,
        back: usize,
        count: usize,
        limit: usize,
    ) -> Option<usize>
        requires { (w < vertices_of self.old.labelling.chart.now.body.now) × NodeRoom count limit }
        ensures kept { self.new.labelling ≡ self.old.labelling }
        ensures wrote { Wrote (Text (drawing self.old.labelling) w back)
            count limit self.old.nodes.bytes self.new.nodes.bytes result }
    {
        // the end has none
        if (w == 0) | (limit < count + 3) {
            return None;
        }
        let left = self.write_sum(Half::Entries, w, w, count, limit - 2)?;
        let right = self.write_sum(Half::Branches, w, back, left, limit - 1)?;
        self.nodes.put(right, Kind::Star, 0, left - 1, right - 1);
        Some(right + 1)
    }
}

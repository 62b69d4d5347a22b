// Reachability along a table of successors: a set for each vertex.
#![tactic(auto)]

ghost use Rattle.std.specs.Prelude.{◌≡◌, true, List, ℕ, ◌+◌, ◌*◌, ◌≤◌, ◌<◌, length};
ghost use Rattle.bits.specs.Sets.{Has, Members, Difference};
ghost use Rattle.bits.specs.Tables.{WholeSets};
ghost use Rattle.theory.specs.Paths.{Avoid};
ghost use Rattle.reach.specs.Searches.{Leads, LedTo, FromSet, ClosedBut, InOrFrom, Known, Jumps, Visited};
ghost use Rattle.reach.specs.Searches.{ReachedIn, TurnReaches, Searched, Cycles};
ghost use Rattle.reach.specs.Searches.{Settled, Settles, SettledBut};

use bits::Set;
use bits::tables::{clear, in_row, put_row, row, row_or_empty, united_from};

// What is seen, and those of it whose successors are seen too.
#[derive(Clone, Copy)]
pub struct Search {
    pub seen: Set,
    pub past: Set,
}

impl Search {
    // What is seen, and whose successors are to be seen still.
    fn left(self) -> Set
        ensures { Difference self.seen self.past result }
    {
        self.seen.difference(self.past)
    }
}

// What is known of reachability along the table `next`: set x of `after` has, for each x from `from` up to `to`, what
// x reaches by one step or more. Two values with the same fields are the same, so a ghost field says that a fact holds,
// and no more (`∥ .. ∥₁`).
#[derive(Clone, Copy)]
pub struct Reached<'a> {
    pub next: &'a [u64],
    pub after: &'a [u64],
    pub from: usize,
    pub to: usize,
    pub ghost whole: { ∥ WholeSets next.now ∥₁ },
    pub ghost room: { 2 * to ≤ length after.now },
    pub ghost known: { ∥ Known next.now after.now from to ∥₁ },
}

impl<'a> Reached<'a> {
    pub fn new(next: &'a [u64], after: &'a [u64], from: usize, to: usize) -> Self
        requires { WholeSets next.now × (2 * to ≤ length after.now) × Known next.now after.now from to }
        ensures { (result.next.now ≡ next.now)
            × (result.after.now ≡ after.now)
            × (result.from ≡ from)
            × (result.to ≡ to) }
    {
        Reached {
            next,
            after,
            from,
            to,
        }
    }

    // Nothing is known.
    pub fn nothing(next: &'a [u64]) -> Self
        requires { WholeSets next.now }
        ensures { (result.next.now ≡ next.now)
            × (result.after.now ≡ next.now)
            × (result.from ≡ 0)
            × (result.to ≡ 0) }
    {
        Reached {
            next,
            after: next,
            from: 0,
            to: 0,
        }
    }

    // Whether all that w reaches is known, and `stop` is neither w nor among it.
    fn jumps(&self, stop: usize, w: usize) -> bool
        requires { (stop < 128) × (w < 128) }
        ensures { result ≡ true → Jumps self.now.after.now self.now.from self.now.to stop w }
    {
        (self.from..self.to).contains(&w) && w != stop && !in_row(self.after, w, stop)
    }

    // The turn of w, which is past: its successors are seen, unless it is `stop`. Where all that w reaches is known,
    // that is seen and past.
    fn visit(&self, stop: usize, w: usize, s: Search) -> Search
        requires { (stop < 128) × (w < 128) }
        ensures { Visited self.now.next.now stop w s result }
    {
        if self.jumps(stop, w) {
            let all = row(self.after, w);
            return Search {
                seen: s.seen.union(all),
                past: s.past.union(all),
            };
        }
        if w == stop {
            return s;
        }
        Search {
            seen: s.seen.union(row_or_empty(self.next, w)),
            past: s.past,
        }
    }

    // What the table `next` reaches from a set, never leaving `stop`, and what is in a set that is closed under it but
    // for the other one; the end, 0, stops nothing.
    pub fn closure_from(&self, stop: usize, closed: Set, set: Set) -> Set
        requires { (stop < 128) × ClosedBut (Avoid stop (Leads self.now.next.now)) closed set }
        ensures { Members (InOrFrom (Avoid stop (Leads self.now.next.now)) closed set) result }
    {
        let mut s = Search {
            seen: closed.union(set),
            past: closed,
        };
        let mut left = s.left();
        while !left.is_empty() {
            let marked = s.past.with_highest(left);
            s.past = marked.set;
            s = self.visit(stop, marked.at, s);
            left = s.left();
        }
        s.seen
    }

    // The same from a set alone.
    pub fn closure_knowing(&self, stop: usize, set: Set) -> Set
        requires { stop < 128 }
        ensures { Members (FromSet (Avoid stop (Leads self.now.next.now)) set) result }
    {
        self.closure_from(stop, Set::empty(), set)
    }

    // What w reaches, at its turn: the vertices whose turn is past are known. Inlined, since a call for each turn
    // takes one to three tenths more instructions.
    #[inline(always)]
    fn turn_reaches(&self, past: Set, w: usize) -> Set
        requires { ((x : ℕ) → Has past x → (self.now.from ≤ x) × (x < self.now.to)) × (w < 128) }
        ensures { TurnReaches self.now.next.now w result }
    {
        let set = row_or_empty(self.next, w);
        if set.difference(past).is_empty() {
            return joined_by_two(self.after, set);
        }
        self.closure_knowing(w, set)
    }
}

// What the members of a set lead to by one step.
fn led_to(next: &[u64], set: Set) -> Set
    requires { WholeSets next.now }
    ensures { Members (LedTo next.now set) result }
{
    united_from(next, 0, set.lo).union(united_from(next, 64, set.hi))
}

// What the table `next` reaches from a set, never leaving `stop`, where nothing is known: a round takes all that is new
// at once.
pub fn closure(next: &[u64], stop: usize, set: Set) -> Set
    requires { WholeSets next.now × (stop < 128) }
    ensures { Members (FromSet (Avoid stop (Leads next.now)) set) result }
{
    let mut seen = set;
    // nothing leaves `stop`: it is past from the start
    let mut past = Set::empty().with(stop);
    let mut left = seen.difference(past);
    while !left.is_empty() {
        past = past.union(left);
        seen = seen.union(led_to(next, left));
        left = seen.difference(past);
    }
    seen
}

// A set, and what its members reach by the table: what the others reach that one of them reaches is there already. It
// goes by the highest and the lowest member that is left at once: the two rows are read together.
fn joined_by_two(after: &[u64], set: Set) -> Set
    requires { (x : ℕ) → Has set x → 2 * x + 2 ≤ length after.now }
    ensures { (a : List ℕ) → ReachedIn a after.now set → Members (FromSet (Leads a) set) result }
{
    let mut all = set;
    let mut left = set;
    while !left.is_empty() {
        let marked = Set::empty().with_highest(left);
        let low = left.lowest();
        let first = row(after, low);
        if low == marked.at {
            return all.union(first);
        }
        let more = row(after, marked.at).union(first);
        all = all.union(more);
        left = left.difference(marked.set.with(low).union(more));
    }
    all
}

// `next`, n and `after` go together from here on. Were they a struct that is lent, each contract would have to say that the
// first two stay, which is no plainer.

// The vertices have a turn each, from below: the lowest of the first n vertices that reaches itself, if one does. What
// each reaches is kept for the next ones. Where there is a cycle `after` has nothing.
fn cycle_from_below(next: &[u64], n: usize, after: &mut [u64]) -> Option<usize>
    requires { WholeSets next.now × (n ≤ 128) × (2 * n ≤ length after.old) }
    ensures { Cycles next.now n after.old result after.new }
{
    let mut past = Set::empty();
    for w in 0..n {
        let set = Reached::new(next, after, 0, w).turn_reaches(past, w);
        if set.contains(w) {
            clear(after);
            return Some(w);
        }
        put_row(after, w, set);
        past = past.with(w);
    }
    None
}

// The turns from above: whether none of the first n vertices reaches itself. A cycle found so need not be that of the
// lowest vertex: so this is a loop of its own, with another answer, and not the one above with a direction.
fn passes_from_above(next: &[u64], n: usize, after: &mut [u64]) -> bool
    requires { WholeSets next.now × (n ≤ 128) × (2 * n ≤ length after.old) }
    ensures { Searched next.now n after.old result after.new }
{
    let mut past = Set::empty();
    for w in (0..n).rev() {
        let set = Reached::new(next, after, w + 1, n).turn_reaches(past, w);
        if set.contains(w) {
            return false;
        }
        put_row(after, w, set);
        past = past.with(w);
    }
    true
}

// The turns from above, or from below where more is known so.
fn cycle_by_turns(next: &[u64], n: usize, after: &mut [u64]) -> Option<usize>
    requires { WholeSets next.now × (n ≤ 128) × (2 * n ≤ length after.old) }
    ensures { Cycles next.now n after.old result after.new }
{
    // where vertices lead up, as the one half way tells, more is known by turns from above
    let half = n / 2;
    let w = row_or_empty(next, half).lowest();
    if (w < half) | (w == 128) {
        return cycle_from_below(next, n, after);
    }
    if passes_from_above(next, n, after) {
        return None;
    }
    cycle_from_below(next, n, after)
}

// The turn of w: where it leads to settled vertices alone, it is settled too.
fn settle_one(next: &[u64], after: &mut [u64], w: usize, settled: Set) -> Set
    requires { WholeSets next.now
        × (w < 128)
        × (2 * w + 2 ≤ length after.old)
        × ((x : ℕ) → Has settled x → 2 * x + 2 ≤ length after.old)
        × Settled next.now after.old settled
        × (¬ Has settled w) }
    ensures { Settles next.now (λ (x : ℕ). x ≡ w)
        after.old settled after.new result }
{
    let set = row_or_empty(next, w);
    if !set.difference(settled).is_empty() {
        return settled;
    }
    let all = joined_by_two(after, set);
    put_row(after, w, all);
    settled.with(w)
}

// A turn for each of some vertices, the lowest first.
fn settle_round(next: &[u64], after: &mut [u64], among: Set, settled: Set) -> Set
    requires { WholeSets next.now
        × ((x : ℕ) → Has among x → 2 * x + 2 ≤ length after.old)
        × ((x : ℕ) → Has settled x → 2 * x + 2 ≤ length after.old)
        × Settled next.now after.old settled
        × ((x : ℕ) → Has among x → ¬ Has settled x) }
    ensures { Settles next.now (Has among) after.old settled after.new result }
{
    let mut past = settled;
    for w in among.members() {
        past = settle_one(next, after, w, past);
    }
    past
}

// Rounds of the first n vertices, as long as each settles another. The vertices that are left: those on a cycle, and
// those that lead to one.
fn settle(next: &[u64], n: usize, after: &mut [u64]) -> Set
    requires { WholeSets next.now × (n ≤ 128) × (2 * n ≤ length after.old) }
    ensures { SettledBut next.now n after.old result after.new }
{
    let all = Set::below(n);
    let mut settled = Set::empty();
    let mut left = all;
    while !left.is_empty() {
        let more = settle_round(next, after, left, settled);
        if more.difference(settled).is_empty() {
            return left;
        }
        settled = more;
        left = all.difference(settled);
    }
    left
}

// By rounds: in a small chart they are few, whatever the order of the vertices.
fn cycle_by_rounds(next: &[u64], n: usize, after: &mut [u64]) -> Option<usize>
    requires { WholeSets next.now × (n ≤ 128) × (2 * n ≤ length after.old) }
    ensures { Cycles next.now n after.old result after.new }
{
    if settle(next, n, after).is_empty() {
        return None;
    }
    cycle_from_below(next, n, after)
}

// The lowest of the first n vertices that reaches itself, if one does: then `after` has nothing. Else it has what each
// of them reaches, and the sets of the others stay.
pub fn cycle(next: &[u64], n: usize, after: &mut [u64]) -> Option<usize>
    requires { WholeSets next.now × (n ≤ 128) × (2 * n ≤ length after.old) }
    ensures { Cycles next.now n after.old result after.new }
{
    if n <= 32 {
        return cycle_by_rounds(next, n, after);
    }
    cycle_by_turns(next, n, after)
}

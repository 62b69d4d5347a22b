// Tables of sets of the numbers below 128, two words a set: so `insert` goes by the one word that has the bit, in 9
// instructions, and on a slice of sets in 14.
ghost use Rattle.std.specs.Prelude.{◌≡◌, true, ◌↔◌, ℕ, ◌+◌, ◌*◌, ◌≤◌, ◌<◌, length, replicate};
ghost use Rattle.bits.specs.Words.{On};
ghost use Rattle.bits.specs.Sets.{Has, Members};
ghost use Rattle.bits.specs.Tables.{WholeSets, row_of, HasRow, put_row, Gains, Above, InSome, InSomeFrom, InFirst};

use super::{Set, is_set, places, with_bit};

// Set v of a table.
pub fn row(table: &[u64], v: usize) -> Set
    requires { 2 * v + 2 ≤ length table.now }
    ensures { result ≡ row_of table.now v }
{
    Set {
        lo: table[2 * v],
        hi: table[2 * v + 1],
    }
}

// Whether w is in set v of a table, by the one word that has its bit.
pub fn in_row(table: &[u64], v: usize, w: usize) -> bool
    requires { (2 * v + 2 ≤ length table.now) × (w < 128) }
    ensures { (result ≡ true) ↔ HasRow table.now v w }
{
    is_set(table[2 * v + w / 64], w % 64)
}

// Set v of a table, or nothing where the table has no set v.
pub fn row_or_empty(table: &[u64], v: usize) -> Set
    requires { WholeSets table.now }
    ensures { result ≡ row_of table.now v }
{
    if v >= table.len() / 2 {
        return Set::empty();
    }
    row(table, v)
}

// Set v of a table becomes this set.
pub fn put_row(table: &mut [u64], v: usize, set: Set)
    requires { 2 * v + 2 ≤ length table.old }
    ensures { table.new ≡ put_row table.old v set }
{
    table[2 * v] = set.lo;
    table[2 * v + 1] = set.hi;
}

// Puts w into set v of a table.
pub fn insert(table: &mut [u64], v: usize, w: usize)
    requires { (2 * v + 2 ≤ length table.old) × (w < 128) }
    ensures { Gains (λ (x y : ℕ). (x ≡ v) × (y ≡ w)) table.old table.new }
{
    let at = 2 * v + w / 64;
    table[at] = with_bit(table[at], w % 64);
}

// Puts a set into set v of a table.
pub fn join(table: &mut [u64], v: usize, set: Set)
    requires { 2 * v + 2 ≤ length table.old }
    ensures { Gains (λ (x y : ℕ). (x ≡ v) × Has set y) table.old table.new }
{
    let all = row(table, v).union(set);
    put_row(table, v, all);
}

// Puts a set into set v + k of a table, for each bit k of x.
pub fn spread(table: &mut [u64], v: usize, x: u64, set: Set)
    requires { (k : ℕ) → On x k → 2 * (v + k) + 2 ≤ length table.old }
    ensures { Gains (λ (w z : ℕ). Above v x w × Has set z) table.old table.new }
{
    for k in places(x) {
        join(table, v + k, set);
    }
}

// The union of the sets of a table, 64 of them at least, for the bits of x.
pub fn united(table: &[u64], x: u64) -> Set
    requires { 128 ≤ length table.now }
    ensures { Members (InSome table.now x) result }
{
    let mut all = Set::empty();
    for i in places(x) {
        all = all.union(row(table, i));
    }
    all
}

// The union of the first n sets of a table.
pub fn union_of(table: &[u64], n: usize) -> Set
    requires { 2 * n ≤ length table.now }
    ensures { Members (InFirst table.now n) result }
{
    let mut all = Set::empty();
    for v in 0..n {
        all = all.union(row(table, v));
    }
    all
}

// The union of the sets v + k of a table, for each bit k of x, where it has them.
pub fn united_from(table: &[u64], v: usize, x: u64) -> Set
    requires { WholeSets table.now × (v ≤ 64) }
    ensures { Members (InSomeFrom table.now v x) result }
{
    let mut all = Set::empty();
    for k in places(x) {
        all = all.union(row_or_empty(table, v + k));
    }
    all
}

// All words of a table become 0.
pub fn clear(table: &mut [u64])
    ensures { table.new ≡ replicate (length table.old) 0 }
{
    table.fill(0);
}

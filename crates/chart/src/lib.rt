// Chart bodies (document 01, kind 2): a header of four bytes (V, start, two of T) and T transitions of four bytes.
#![tactic(auto)]

pub mod images;

ghost use Rattle.std.specs.Prelude.{◌≡◌, true, Ok, ℕ, ◌+◌, ◌-◌, ◌*◌, ◌≤◌, ◌<◌, length, get_or};
ghost use Rattle.chart.specs.Bodies.{vertices_of, start_of, count_of, HeaderFits, SoundTo};
ghost use Rattle.chart.specs.Checks.{header_ok, check_of};
ghost use Rattle.chart.specs.Codes.{code_key, code_rises, code_ok, Turn};
ghost use Rattle.chart.specs.Leaving.{leaving_of, FromBelow, RangeOf, OneRange, NotPast, Begins};
ghost use Rattle.chart.specs.Parts.{count_in, Row, RowsOf, Enters};
ghost use Rattle.chart.specs.Steps.{At, Kept};
ghost use Rattle.bits.specs.Bits.{Bytes};
ghost use Rattle.bits.specs.First.{Split};
ghost use Rattle.bits.specs.Sets.{Members};

use bits::{Set, Span, byte, read_u16, read_u32};
use report::Refusal;

// T, the number of transitions that the header declares.
pub fn count(body: &[u8]) -> usize
    requires { 4 ≤ length body.now }
    ensures { (result ≡ count_of body.now) × (result < 65536) }
{
    read_u16(body, 2)
}

fn header_ok(body: &[u8]) -> bool
    ensures { result ≡ header_ok body.now }
{
    if body.len() < 4 {
        return false;
    }
    let v = byte(body, 0);
    let start = byte(body, 1);
    let n = count(body);
    (2 <= v) & (v <= 128) & (1 <= start) & (start < v) & (n <= 8192) & (body.len() == 4 + 4 * n)
}

// The key of a transition's code: its from, its action and what is above them. Where the last byte is 0 that is the to,
// and keys are in the order of charts.
fn key_of(code: u32) -> u32
    ensures { result ≡ code_key code }
{
    65536 * (code % 256) + 256 * (code / 256 % 256) + code / 65536
}

// 21 of a transition but for a from of V or above, by its code and its key, after the key before it. The last
// comparison is of the to and the last byte as one number, so it refuses a last byte other than 0. With that byte 0 the
// key of a from of 0 is at most 65535, and the key before it is no less: the first comparison refuses that.
fn code_rises(code: u32, key: u32, v: u32, before: u32) -> bool
    ensures { result ≡ code_rises code key v before }
{
    (before < key) & (1 <= code / 256 % 256) & (code / 65536 < v)
}

// 21 of a transition.
fn code_ok(code: u32, key: u32, v: u32, before: u32) -> bool
    requires { v ≤ 128 }
    ensures { result ≡ code_ok code key v before }
{
    code_rises(code, key, v, before) & (key < 65536 * v)
}

// The key before byte p. Before the first transition that is the number just below the keys whose from is 1.
fn key_before(body: &[u8], p: usize) -> u32
    requires { SoundTo body.now p }
    ensures { Turn body.now p result }
{
    if p == 4 {
        return 65535;
    }
    key_of(read_u32(body, p - 4))
}

// Whether 21 lets the 32 transitions from byte p on pass, where `first` is the key before them. A refusal does not end
// the loop, so that the compiler tests several at once; keys rise, so each one's from is below V if the last one's is.
fn block_ok(body: &[u8], p: usize, v: u32, first: u32) -> bool
    requires { Turn body.now p first × (v ≡ vertices_of body.now) × (p + 128 ≤ length body.now) }
    ensures { result ≡ true → SoundTo body.now (p + 128) }
{
    let mut good = true;
    let mut before = first;
    for i in 0..32 {
        let code = read_u32(body, p + 4 * i);
        let key = key_of(code);
        good = good & code_rises(code, key, v, before);
        before = key;
    }
    good & (before < 65536 * v)
}

// The end of the blocks of 32 transitions that pass, from the first on. A `while`: the blocks are for speed, and the key
// before a block stands outside it.
fn sound_until(body: &[u8], v: u32) -> usize
    requires { HeaderFits body.now × (v ≡ vertices_of body.now) }
    ensures { SoundTo body.now result }
{
    let mut p: usize = 4;
    let mut before = key_before(body, p);
    while p + 128 <= body.len() {
        if !block_ok(body, p, v, before) {
            return p;
        }
        p += 128;
        before = key_before(body, p);
    }
    p
}

// The check from byte `at` on, where the transitions before it have passed.
fn check_from(body: &[u8], v: u32, at: usize) -> Result<(), Refusal>
    requires { SoundTo body.now at × (v ≡ vertices_of body.now) }
    ensures { result ≡ check_of body.now }
{
    let n = count(body);
    let mut before = key_before(body, at);
    for i in (at - 4) / 4..n {
        let code = read_u32(body, 4 * i + 4);
        let key = key_of(code);
        if !code_ok(code, key, v, before) {
            return Err(Refusal::Transition(i));
        }
        before = key;
    }
    Ok(())
}

// What 20 and 21 say of a chart body.
pub fn check(body: &[u8]) -> Result<(), Refusal>
    ensures { result ≡ check_of body.now }
{
    if !header_ok(body) {
        return Err(Refusal::ChartHeader);
    }
    let v = byte(body, 0) as u32;
    let at = sound_until(body, v);
    check_from(body, v, at)
}

// The number of transitions whose from is below v, by halving: froms do not fall. A `while`, since what is halved is the
// range of indices.
fn lower(body: &[u8], n: usize, v: usize) -> usize
    requires { (check_of body.now ≡ Ok tt) × (n ≡ count_of body.now) }
    ensures { Split (FromBelow body.now v) n result }
{
    let mut lo: usize = 0;
    let mut hi = n;
    while lo < hi {
        let mid = lo + (hi - lo) / 2;
        if byte(body, 4 * mid + 4) < v {
            lo = mid + 1;
        } else {
            hi = mid;
        }
    }
    lo
}

// Where the transitions of v stand, by their index.
pub fn range_of(body: &[u8], v: usize) -> Span
    requires { check_of body.now ≡ Ok tt }
    ensures { RangeOf body.now v result }
{
    let n = count(body);
    if v >= byte(body, 0) {
        return Span { from: n, to: n };
    }
    let from = lower(body, n, v);
    let to = lower(body, n, v + 1);
    Span { from, to }
}

// The transitions of the vertex whose range this is, as a part of a body that passes.
pub fn part_in(body: &[u8], range: Span) -> &[u8]
    requires { (check_of body.now ≡ Ok tt) × OneRange body.now range }
    ensures { (v : ℕ) → RangeOf body.now v range → result.now ≡ leaving_of body.now v }
{
    let a = 4 * range.from + 4;
    let e = 4 * range.to + 4;
    &body[a..e]
}

// The transitions of a body that passes which leave v.
fn leaving_part(body: &[u8], v: usize) -> &[u8]
    requires { check_of body.now ≡ Ok tt }
    ensures { result.now ≡ leaving_of body.now v }
{
    part_in(body, range_of(body, v))
}

// The transitions that leave a vertex, as a part of the body: nothing for a number of V or above, or where 20 or 21
// refuses.
pub fn leaving(body: &[u8], vertex: usize) -> &[u8]
    ensures { result.now ≡ leaving_of body.now vertex }
{
    match check(body) {
        Ok(()) => leaving_part(body, vertex),
        Err(_) => &body[..0],
    }
}

// From a place that is not past the transitions of v on to another, by eights: froms do not fall. The eights are for
// speed: one look passes eight transitions. Here and in `past` n is the number of transitions, read once for all vertices.
fn skip(body: &[u8], n: usize, v: usize, at: usize) -> usize
    requires { NotPast body.now n v at }
    ensures { NotPast body.now n v result }
{
    let mut i = at;
    while i + 8 <= n {
        if byte(body, 4 * (i + 7) + 4) >= v {
            return i;
        }
        i += 8;
    }
    i
}

// Where the transitions of v begin, from a place that is not past them.
fn past(body: &[u8], n: usize, v: usize, at: usize) -> usize
    requires { NotPast body.now n v at }
    ensures { Split (FromBelow body.now v) n result }
{
    for i in skip(body, n, v, at)..n {
        if byte(body, 4 * i + 4) >= v {
            return i;
        }
    }
    n
}

// For each v to 128, the number of transitions whose from is below v: those of a vertex u stand from entry u up to
// entry u + 1. The table is lent, since one that is handed back would be copied, at 136 instructions.
pub fn fill_begins(body: &[u8], begins: &mut [usize; 129])
    requires { check_of body.now ≡ Ok tt }
    ensures { Begins body.now begins.new }
{
    let n = count(body);
    // nothing leaves a vertex from V on
    begins.fill(n);
    let mut at: usize = 0;
    for v in 0..byte(body, 0) {
        at = past(body, n, v, at);
        begins[v] = at;
    }
}

// A chart body that 20 and 21 let pass, and where the transitions of each vertex begin.
#[derive(Clone, Copy)]
pub struct Chart<'a> {
    pub body: &'a [u8],
    pub begins: &'a [usize; 129],
    pub ghost bytes: { Bytes body.now },
    pub ghost passed: { check_of body.now ≡ Ok tt },
    pub ghost begun: { Begins body.now begins.now },
}

impl<'a> Chart<'a> {
    pub fn new(body: &'a [u8], begins: &'a [usize; 129]) -> Chart<'a>
        requires { (check_of body.now ≡ Ok tt) × Begins body.now begins.now }
        ensures { result.body.now ≡ body.now }
    {
        Chart { body, begins }
    }

    // V, the number of vertices.
    pub fn vertices(&self) -> usize
        ensures { (result ≡ vertices_of self.now.body.now) × (2 ≤ result) × (result ≤ 128) }
    {
        byte(self.body, 0)
    }

    // The vertex where events begin.
    pub fn start(&self) -> usize
        ensures { (result ≡ start_of self.now.body.now) × (1 ≤ result) × (result < vertices_of self.now.body.now) }
    {
        byte(self.body, 1)
    }

    // T, the number of transitions.
    pub fn count(&self) -> usize
        ensures { (result ≡ count_of self.now.body.now) × (result ≤ 8192) }
    {
        count(self.body)
    }

    // Where the transitions of u stand, by their index.
    pub fn range(&self, u: usize) -> Span
        requires { u < 128 }
        ensures stands { RangeOf self.now.body.now u result }
        ensures within { (result.from ≤ result.to) × (result.to ≤ count_of self.now.body.now) }
    {
        Span {
            from: self.begins[u],
            to: self.begins[u + 1],
        }
    }

    // The transitions of u as a part of the body.
    pub fn part(&self, u: usize) -> &'a [u8]
        requires { u < 128 }
        ensures { (result.now ≡ leaving_of self.now.body.now u) × Row result.now }
    {
        part_in(self.body, self.range(u))
    }

    // The transitions of u, four bytes each.
    pub fn rows(&self, u: usize) -> &'a [[u8; 4]]
        requires { u < 128 }
        ensures { RowsOf (leaving_of self.now.body.now u) result.now }
    {
        let range = self.range(u);
        let (all, _) = self.body[4..].as_chunks::<4>();
        &all[range.from..range.to]
    }

    // What the transitions of u lead to whose `keep` byte is 1.
    pub fn kept(&self, keep: &[u8], u: usize) -> Set
        requires { (count_of self.now.body.now ≤ length keep.now) × (u < 128) }
        ensures { Members (Kept self.now.body.now keep.now u) result }
    {
        let range = self.range(u);
        let beside = &keep[range.from..range.to];
        let mut set = Set::empty();
        // by index: a `zip` tests both ends, 3 in 100 more instructions
        for (i, row) in self.rows(u).iter().enumerate() {
            set = set.with_if(row[2] as usize, beside[i] == 1);
        }
        set
    }
}

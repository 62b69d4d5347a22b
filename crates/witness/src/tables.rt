// The transitions of a labelling as tables of sets of vertices.
ghost use Rattle.std.specs.Prelude.{◌≡◌, true, List, ℕ, ◌+◌, ◌*◌, ◌≤◌, ◌<◌, length, Ok};
ghost use Rattle.bits.specs.Bits.{Bytes, HighestByte};
ghost use Rattle.bits.specs.Counts.{bits_below};
ghost use Rattle.bits.specs.Sets.{Ones};
ghost use Rattle.bits.specs.Tables.{WholeSets, TableOf, Gains, When};
ghost use Rattle.chart.specs.Bodies.{vertices_of, count_of, WellFormed};
ghost use Rattle.chart.specs.Checks.{check_of};
ghost use Rattle.chart.specs.Leaving.{Begins};
ghost use Rattle.chart.specs.Steps.{StepsOf};
ghost use Rattle.witness.specs.Given.{Enters, EntersFrom, LowestLevels, NoSteps};
ghost use Rattle.witness.specs.Given.{IsBranch, IsEntry, HasLabel, WithTargets, Took, LevelsOf, OutgoingOf};
ghost use Rattle.witness.specs.Given.{Room, LevelsFit, NoneAbove, InLater, sizes_of, PutFor};
ghost use Rattle.witness.specs.Labellings.{loops_of};

use super::Labelling;
use bits::tables::{insert, join, put_row, row, row_or_empty};
use bits::{Set, byte, count_bits, fill_ones, read_u32, read_u64};

// A set with what a run of transitions leads to, and the place after the run.
#[derive(Clone, Copy)]
pub struct Taken {
    pub set: Set,
    pub at: usize,
}

// Where the branches of a vertex lead to, and where its entries do.
#[derive(Clone, Copy)]
pub struct Outgoing {
    pub branches: Set,
    pub entries: Set,
}

// Whether eight labels from `at` on are this one. Eight zeros are one load.
#[inline(always)]
fn eight_have(labels: &[u8], at: usize, label: usize) -> bool
    requires { (at + 8 ≤ length labels.now) × (label < 256) }
    ensures { result ≡ true → (i : ℕ) → at ≤ i → i < at + 8 → HasLabel labels.now label i }
{
    if label == 0 {
        return read_u64(labels, at) == 0;
    }
    let four = 16843009 * (label as u32);
    (read_u32(labels, at) == four) & (read_u32(labels, at + 4) == four)
}

// What runs of transitions are looked for in: the bodies of a labelling, and the table by which what they lead to comes
// into a set.
#[derive(Clone, Copy)]
pub struct Runs<'a> {
    pub body: &'a [u8],
    pub labels: &'a [u8],
    pub begins: &'a [usize; 129],
    pub ones: &'a [u64; 192],
    pub ghost bytes: { Bytes labels.now },
    pub ghost formed: { WellFormed body.now },
    pub ghost long: { length labels.now ≡ count_of body.now },
    pub ghost begun: { Begins body.now begins.now },
    pub ghost of_ones: { Ones (vertices_of body.now) ones.now },
}

impl<'a> Runs<'a> {
    // The set with what eight transitions lead to. A call of it, or of the next, would cost 4 in 100 more instructions.
    #[inline(always)]
    fn with_eight(&self, at: usize, set: Set) -> Set
        requires { at + 8 ≤ count_of self.now.body.now }
        ensures { WithTargets self.now.body.now at (at + 8) set result }
    {
        let mut all = set;
        for i in at..at + 8 {
            all = all.with_by(self.ones, byte(self.body, 4 * i + 4 + 2));
        }
        all
    }

    // From `at` on, transitions with one label up to `end`, as long as eight follow each other. A `while`: the place where
    // it stops is told.
    #[inline(always)]
    fn take_eights(&self, label: usize, at: usize, end: usize, set: Set) -> Taken
        requires { (at ≤ end) × (end ≤ count_of self.now.body.now) × (label < 256) }
        ensures { Took self.now.body.now (HasLabel self.now.labels.now label) at end set result }
    {
        let mut all = set;
        let mut i = at;
        while i + 8 <= end {
            if !eight_have(self.labels, i, label) {
                return Taken { set: all, at: i };
            }
            all = self.with_eight(i, all);
            i += 8;
        }
        Taken { set: all, at: i }
    }

    // From `at` on, branches up to the first entry or to `end`.
    fn take_branches(&self, at: usize, end: usize, set: Set) -> Taken
        requires { (at ≤ end) × (end ≤ count_of self.now.body.now) }
        ensures { Took self.now.body.now (IsBranch self.now.labels.now) at end set result
            × (result.at < end → IsEntry self.now.labels.now result.at) }
    {
        let first = self.take_eights(0, at, end, set);
        let mut all = first.set;
        for i in first.at..end {
            if byte(self.labels, i) != 0 {
                return Taken { set: all, at: i };
            }
            all = all.with_by(self.ones, byte(self.body, 4 * i + 4 + 2));
        }
        Taken { set: all, at: end }
    }

    // From `at` on, entries of u of the first one's level, as long as eight follow each other. It comes into the set of that
    // level once: a store for each entry would wait for the one before it.
    fn take_level(&self, u: usize, at: usize, end: usize, set: Set, entered: &mut [u64]) -> Taken
        requires { (at ≤ end)
            × (end ≤ count_of self.now.body.now)
            × (u < 128)
            × LevelsFit self.now.labels.now entered.old }
        ensures { Took self.now.body.now (IsEntry self.now.labels.now) at end set result
            × Gains (LevelsOf self.now.labels.now at result.at u) entered.old entered.new }
    {
        if end < at + 8 {
            return Taken { set, at };
        }
        let label = byte(self.labels, at);
        if label == 0 {
            return Taken { set, at };
        }
        if !eight_have(self.labels, at, label) {
            return Taken { set, at };
        }
        insert(entered, label, u);
        let first = self.with_eight(at, set);
        self.take_eights(label, at + 8, end, first)
    }

    // From `at` on, entries of u one by one, up to the first branch or to `end`.
    fn take_each_entry(
        &self,
        u: usize,
        at: usize,
        end: usize,
        set: Set,
        entered: &mut [u64],
    ) -> Taken
        requires { (at ≤ end)
            × (end ≤ count_of self.now.body.now)
            × (u < 128)
            × LevelsFit self.now.labels.now entered.old }
        ensures { Took self.now.body.now (IsEntry self.now.labels.now) at end set result
            × (result.at < end → IsBranch self.now.labels.now result.at)
            × Gains (LevelsOf self.now.labels.now at result.at u) entered.old entered.new }
    {
        let mut all = set;
        for i in at..end {
            let label = byte(self.labels, i);
            if label == 0 {
                return Taken { set: all, at: i };
            }
            insert(entered, label, u);
            all = all.with_by(self.ones, byte(self.body, 4 * i + 4 + 2));
        }
        Taken { set: all, at: end }
    }

    // From `at` on, entries of u up to the first branch or to `end`. It comes into the sets of their levels.
    fn take_entries(&self, u: usize, at: usize, end: usize, set: Set, entered: &mut [u64]) -> Taken
        requires { (at ≤ end)
            × (end ≤ count_of self.now.body.now)
            × (u < 128)
            × LevelsFit self.now.labels.now entered.old }
        ensures { Took self.now.body.now (IsEntry self.now.labels.now) at end set result
            × (result.at < end → IsBranch self.now.labels.now result.at)
            × Gains (LevelsOf self.now.labels.now at result.at u) entered.old entered.new }
    {
        let first = self.take_level(u, at, end, set, entered);
        let some = first.set;
        self.take_each_entry(u, first.at, end, some, entered)
    }

    // The transitions of u, run by run. It comes into the sets of the levels of its entries.
    fn outgoing_of(&self, u: usize, entered: &mut [u64]) -> Outgoing
        requires { (u < 128) × LevelsFit self.now.labels.now entered.old }
        ensures { OutgoingOf (StepsOf self.now.body.now self.now.labels.now) u result
            × Gains (EntersFrom u (StepsOf self.now.body.now self.now.labels.now))
            entered.old entered.new }
    {
        let end = self.begins[u + 1];
        let mut branches = Set::empty();
        let mut entries = Set::empty();
        let mut i = self.begins[u];
        // a run at a time: where the next one begins is known then
        while i < end {
            let some = self.take_branches(i, end, branches);
            branches = some.set;
            let more = self.take_entries(u, some.at, end, entries, entered);
            entries = more.set;
            i = more.at;
        }
        Outgoing { branches, entries }
    }
}

// Puts a transition into the tables: where all transitions, the branches and the entries of each vertex lead to, and which
// vertices have an entry of each level. The tables stand apart: as arrays of one struct the compiler
// clears them twice, at 4 in 100 more instructions.
fn collect_one(
    next: &mut [u64],
    branches: &mut [u64],
    entries: &mut [u64],
    entered: &mut [u64],
    u: usize,
    label: usize,
    w: usize,
)
    requires { (2 * u + 2 ≤ length next.old)
        × (2 * u + 2 ≤ length branches.old)
        × (2 * u + 2 ≤ length entries.old)
        × (2 * label + 2 ≤ length entered.old)
        × (u < 128)
        × (w < 128) }
    ensures { Gains (λ (x y : ℕ). (x ≡ u) × (y ≡ w)) next.old next.new
        × Gains (When (label ≡ 0) u w) branches.old branches.new
        × Gains (When (0 < label) u w) entries.old entries.new
        × Gains (When (0 < label) label u) entered.old entered.new }
{
    insert(next, u, w);
    if label == 0 {
        insert(branches, u, w);
        return;
    }
    insert(entries, u, w);
    insert(entered, label, u);
}

impl<'a> Labelling<'a> {
    // Puts all transitions into the tables, vertex by vertex.
    fn collect_runs(
        &self,
        next: &mut [u64],
        branches: &mut [u64],
        entries: &mut [u64],
        entered: &mut [u64],
    )
        requires { (top : ℕ) × HighestByte self.now.labels.now top
            × Room NoSteps (vertices_of self.now.chart.now.body.now) top
            next.old branches.old entries.old entered.old }
        ensures { (top : ℕ)
            → Room NoSteps (vertices_of self.now.chart.now.body.now) top
            next.old branches.old entries.old entered.old
            → Room (StepsOf self.now.chart.now.body.now self.now.labels.now)
            (vertices_of self.now.chart.now.body.now) top
            next.new branches.new entries.new entered.new }
    {
        let chart = self.chart;
        let n = chart.vertices();
        let mut ones = [0u64; 192];
        fill_ones(&mut ones, n);
        let runs = Runs {
            body: chart.body,
            labels: self.labels,
            begins: chart.begins,
            ones: &ones,
        };
        // nothing leaves the end
        for u in 1..n {
            let out = runs.outgoing_of(u, entered);
            put_row(next, u, out.branches.union(out.entries));
            put_row(branches, u, out.branches);
            put_row(entries, u, out.entries);
        }
    }

    // Puts all transitions into the tables, one by one: sooner done than runs are looked for where they are few.
    fn collect_singly(
        &self,
        next: &mut [u64],
        branches: &mut [u64],
        entries: &mut [u64],
        entered: &mut [u64],
    )
        requires { (top : ℕ) × HighestByte self.now.labels.now top
            × Room NoSteps (vertices_of self.now.chart.now.body.now) top
            next.old branches.old entries.old entered.old }
        ensures { (top : ℕ)
            → Room NoSteps (vertices_of self.now.chart.now.body.now) top
            next.old branches.old entries.old entered.old
            → Room (StepsOf self.now.chart.now.body.now self.now.labels.now)
            (vertices_of self.now.chart.now.body.now) top
            next.new branches.new entries.new entered.new }
    {
        let body = self.chart.body;
        let labels = self.labels;
        for i in 0..labels.len() {
            let u = byte(body, 4 * i + 4);
            let w = byte(body, 4 * i + 4 + 2);
            collect_one(next, branches, entries, entered, u, byte(labels, i), w);
        }
    }

    // Puts all transitions into the tables, which have nothing yet. Not inlined, so that the loops over them and what is asked
    // of the tables after that do not share registers.
    #[inline(never)]
    pub(crate) fn collect(
        &self,
        next: &mut [u64],
        branches: &mut [u64],
        entries: &mut [u64],
        entered: &mut [u64],
    )
        requires { (top : ℕ) × HighestByte self.now.labels.now top
            × Room NoSteps (vertices_of self.now.chart.now.body.now) top
            next.old branches.old entries.old entered.old }
        ensures { (top : ℕ)
            → Room NoSteps (vertices_of self.now.chart.now.body.now) top
            next.old branches.old entries.old entered.old
            → Room (StepsOf self.now.chart.now.body.now self.now.labels.now)
            (vertices_of self.now.chart.now.body.now) top
            next.new branches.new entries.new entered.new }
    {
        if self.labels.len() < 128 {
            self.collect_singly(next, branches, entries, entered);
        } else {
            self.collect_runs(next, branches, entries, entered);
        }
    }
}

// The level becomes that of each vertex of a set.
fn put_level(low: &mut [u8; 128], set: Set, level: usize)
    requires { (length low.old ≡ 128) × (level < 256) }
    ensures { PutFor set level low.old low.new }
{
    for v in set.members() {
        low[v] = level as u8;
    }
}

// The lowest level of the entries of each vertex, of the levels up to the highest.
pub(crate) fn lowest_levels(entered: &[u64], top: usize, low: &mut [u8; 128])
    requires { (2 * top + 2 ≤ length entered.now)
        × (top < 256)
        × NoneAbove entered.now top
        × (length low.old ≡ 128) }
    ensures { (b labels : List ℕ) → check_of b ≡ Ok tt → Bytes labels
        → TableOf (Enters (StepsOf b labels)) entered.now
        → LowestLevels (StepsOf b labels) low.new }
{
    let mut seen = Set::empty();
    for level in 1..top + 1 {
        let here = row(entered, level);
        put_level(low, here.difference(seen), level);
        seen = seen.union(here);
    }
}

// How many bits of a word are set. Most words of the levels have none, which is seen at once.
fn few_bits(x: u64) -> usize
    ensures { (result ≡ bits_below x 64) × (result ≤ 64) }
{
    if x == 0 {
        return 0;
    }
    count_bits(x)
}

// How many numbers the sets of the levels 2 k and 2 k + 1 have.
fn sizes(entered: &[u64], k: usize) -> usize
    requires { WholeSets entered.now × (k < 128) }
    ensures { (result ≡ sizes_of entered.now k) × (result ≤ 256) }
{
    let a = row_or_empty(entered, 2 * k);
    let b = row_or_empty(entered, 2 * k + 1);
    few_bits(a.lo) + few_bits(a.hi) + few_bits(b.lo) + few_bits(b.hi)
}

// The number of loops, by the vertices that have an entry of each level up to the highest.
pub(crate) fn count_loops(entered: &[u64], top: usize) -> usize
    requires { WholeSets entered.now × (top < 256) × NoneAbove entered.now top }
    ensures { (b labels : List ℕ) → check_of b ≡ Ok tt → Bytes labels
        → TableOf (Enters (StepsOf b labels)) entered.now → result ≡ loops_of b labels }
{
    let mut loops: usize = 0;
    for k in 0..top / 2 + 1 {
        loops += sizes(entered, k);
    }
    loops
}

// Each set of a table with what the later ones have. Those after `top` have nothing.
pub(crate) fn join_later(table: &mut [u64], top: usize)
    requires { (2 * top + 2 ≤ length table.old) × (top < 256) × NoneAbove table.old top }
    ensures { Gains (InLater table.old) table.old table.new }
{
    for l in (0..top).rev() {
        let set = row(table, l + 1);
        join(table, l, set);
    }
}

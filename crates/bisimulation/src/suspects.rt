// The chart vertices that pass 43 to 45 with all their rows at once, and the others: the suspects.
ghost use Rattle.std.specs.Prelude.{◌≡◌, true, ℕ, ◌+◌, ◌≤◌, ◌<◌, get_or};
ghost use Rattle.bits.specs.Sets.{Has};
ghost use Rattle.bisimulation.specs.Suspects.{Acting, Into};
ghost use Rattle.bisimulation.specs.Classes.{Adds, Cuts, Spread, RowIn, RowsIn, PassesAt, Sifted};
ghost use Rattle.bisimulation.specs.Classes.{Apart, Joined, Suspected};

use super::classes::Classified;
use super::matching::{Tables, VertexSteps};
use super::rows::Relation;
use super::steps::Steps;
use bits::{Set, bit_and, bit_and_not, bit_or, meets};

impl VertexSteps {
    // Puts words into the tables at each of the vertices: one more in common, and two joined.
    #[tactic(auto, using(crate::proofs::SuspectLaws::member_below))]
    fn spread(&mut self, vertices: Set, steps: u64, every: u64, some: u64)
        ensures { Adds (Has vertices) steps self.old.into self.new.into
            × Cuts (Has vertices) every self.old.all self.new.all
            × Adds (Has vertices) some self.old.any self.new.any }
    {
        for w in vertices.members() {
            self.into[w] = bit_or(self.into[w], steps);
            self.all[w] = bit_and(self.all[w], every);
            self.any[w] = bit_or(self.any[w], some);
        }
    }
}

// The classes of the rows, and words of steps for each class.
#[derive(Clone, Copy)]
pub struct ClassTables<'a> {
    pub relation: &'a Relation<'a>,
    pub class: &'a [u8; 128],
    pub leading: &'a [u64; 128],
    pub every: &'a [u64; 128],
    pub some: &'a [u64; 128],
    pub ghost few: { (u : ℕ) → get_or class.now u 0 < 128 },
}

impl ClassTables<'_> {
    // Row c with the steps of its class into the tables, where it stands for the class; returns the row, or nothing.
    fn spread_one(&self, c: usize, at: &mut VertexSteps) -> Set
        requires { (c < self.now.relation.now.rows)
            × Spread self.now.relation.now.bytes.now self.now.class.now self.now.leading.now self.now.every.now
            self.now.some.now c at.old.into at.old.all at.old.any }
        ensures { Spread self.now.relation.now.bytes.now self.now.class.now self.now.leading.now self.now.every.now
            self.now.some.now (c + 1) at.new.into at.new.all at.new.any
            × RowIn self.now.relation.now.bytes.now self.now.class.now c result }
    {
        if self.class[c] as usize != c {
            return Set::empty();
        }
        let row = self.relation.row(c);
        at.spread(row, self.leading[c], self.every[c], self.some[c]);
        row
    }

    // Each class with its steps into the tables; returns what the rows but row 0 are related to.
    fn spread(&self, at: &mut VertexSteps) -> Set
        requires { (0 < self.now.relation.now.rows)
            × Spread self.now.relation.now.bytes.now self.now.class.now self.now.leading.now self.now.every.now
            self.now.some.now 0 at.old.into at.old.all at.old.any }
        ensures { Spread self.now.relation.now.bytes.now self.now.class.now self.now.leading.now self.now.every.now
            self.now.some.now self.now.relation.now.rows at.new.into at.new.all at.new.any
            × RowsIn self.now.relation.now.bytes.now self.now.class.now self.now.relation.now.rows result }
    {
        self.spread_one(0, at);
        let mut related = Set::empty();
        for c in 1..self.relation.rows {
            related = related.union(self.spread_one(c, at));
        }
        related
    }
}

impl Steps<'_> {
    // The tables of the steps by chart vertex, and for each action the steps with it. Returns what the rows but row 0 are
    // related to.
    pub(crate) fn fill_tables(&self, at: &mut VertexSteps, acting: &mut [u64; 256]) -> Set
        requires { Into self.now.relation.bytes.now self.now.keys.now 0 at.old.into
            × Acting self.now.keys.now 0 acting.old }
        ensures { Into self.now.relation.bytes.now self.now.keys.now self.now.count at.new.into
            × Acting self.now.keys.now self.now.count acting.new
            × Joined self.now.keys.now self.now.words.now self.now.count self.now.relation.bytes.now
            at.new.all at.new.any result }
    {
        let class = self.relation.classes();
        let mut leading = [0u64; 128];
        let plural = self.classify(&class, &mut leading, acting);
        let mut every = [u64::MAX; 128];
        let mut some = [0u64; 128];
        let classified = Classified {
            steps: &*self,
            class: &class,
            leading: &leading,
            acting,
            plural,
        };
        classified.join_rows(&mut every, &mut some);
        let classes = ClassTables {
            relation: &self.relation,
            class: &class,
            leading: &leading,
            every: &every,
            some: &some,
        };
        classes.spread(at)
    }
}

impl Tables<'_> {
    // Whether a step that all rows of v have matches each of its transitions, and each step of the rows matches one of
    // them: two transitions a turn.
    fn passes(&self, v: usize) -> bool
        requires { v < 128 }
        ensures { let k = self.now.chart.now in
            result ≡ true → PassesAt self.now.at.now.into self.now.acting.now self.now.at.now.all self.now.at.now.any
            k.body.now k.begins.now v }
    {
        let a = self.chart.begins[v];
        let b = self.chart.begins[v + 1];
        let every = self.at.all[v];
        let some = self.at.any[v];
        if a >= b {
            return some == 0;
        }
        let last = b - 1;
        let mut matched = 0;
        let mut i = a;
        // so that the end is asked for half as often
        while i < last {
            let x = self.matching(i);
            if !meets(every, x) {
                return false;
            }
            let y = self.matching(i + 1);
            if !meets(every, y) {
                return false;
            }
            matched = bit_or(bit_or(matched, x), y);
            i += 2;
        }
        if i < b {
            let x = self.matching(i);
            if !meets(every, x) {
                return false;
            }
            return bit_and_not(some, bit_or(matched, x)) == 0;
        }
        bit_and_not(some, matched) == 0
    }

    // The same, where many of the transitions go by one action: those that the same steps match are passed over together.
    fn passes_by_runs(&self, v: usize) -> bool
        requires { v < 128 }
        ensures { let k = self.now.chart.now in
            result ≡ true → PassesAt self.now.at.now.into self.now.acting.now self.now.at.now.all self.now.at.now.any
            k.body.now k.begins.now v }
    {
        let b = self.chart.begins[v + 1];
        let every = self.at.all[v];
        let mut matched = 0;
        let mut i = self.chart.begins[v];
        // a turn ends where the steps may change
        while i < b {
            let x = self.matching(i);
            if !meets(every, x) {
                return false;
            }
            matched = bit_or(matched, x);
            i = self.past_alike(i, b);
        }
        bit_and_not(self.at.any[v], matched) == 0
    }

    // The same, the one way or the other.
    fn vertex_passes(&self, v: usize) -> bool
        requires { v < 128 }
        ensures { let k = self.now.chart.now in
            result ≡ true → PassesAt self.now.at.now.into self.now.acting.now self.now.at.now.all self.now.at.now.any
            k.body.now k.begins.now v }
    {
        if self.worth_runs(v) {
            return self.passes_by_runs(v);
        }
        self.passes(v)
    }

    // The vertices of one set, and those of another that do not pass.
    #[tactic(auto, using(crate::proofs::SuspectLaws::member_below))]
    fn sift(&self, related: Set, apart: Set) -> Set
        ensures { let k = self.now.chart.now in
            Sifted self.now.at.now.into self.now.acting.now self.now.at.now.all self.now.at.now.any k.body.now k.begins.now
            related apart result }
    {
        let mut found = apart;
        for v in related.members() {
            let passed = self.vertex_passes(v);
            found = found.with_if(v, !passed);
        }
        found
    }

    // The vertices that 43, 44 or 45 may refuse with some row, by the tables; `related` is what the rows but row 0 are
    // related to.
    pub(crate) fn suspects(&self, relation: &Relation, related: Set) -> Set
        requires { 0 < relation.now.rows }
        ensures { Suspected self.now.at.now.into self.now.acting.now self.now.at.now.all self.now.at.now.any
            self.now.chart.now.body.now self.now.chart.now.begins.now relation.now.bytes.now related result }
    {
        self.sift(related, apart(relation.row(0), related))
    }
}

// 43: row 0 has only vertex 0, and no other row has it. The vertices where this fails.
fn apart(row: Set, related: Set) -> Set
    ensures { Apart row related result }
{
    let end = related.intersection(Set::empty().with(0));
    row.without(0).union(end)
}

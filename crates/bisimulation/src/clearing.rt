// 43 to 45 by the tables: which rows pass with a chart vertex, all rows of its column at once.
ghost use Rattle.std.specs.Prelude.{◌≡◌, ◌+◌, ◌<◌, get_or, replicate};
ghost use Rattle.bits.specs.Sets.{Members};
ghost use Rattle.bits.specs.Tables.{InSome};
ghost use Rattle.chart.specs.Bodies.{vertices_of};
ghost use Rattle.bisimulation.specs.Suspects.{Knows, Walked, SameEnd, Refusable, Gathered};

use super::matching::Tables;
use bits::tables::{put_row, row, united};
use bits::{Set, bit_and_not, bit_or};

// Steps, and the rows with one of them.
#[derive(Clone, Copy)]
pub struct Latest {
    pub steps: u64,
    pub rows: Set,
}

// Steps, and rows that have a step for each transition.
#[derive(Clone, Copy)]
pub struct Matches {
    pub matched: u64,
    pub able: Set,
}

// 43: of a set, row 0 for vertex 0, and every other row for every other vertex.
fn same_ends(v: usize, set: Set) -> Set
    ensures { Members (SameEnd v set) result }
{
    if v == 0 {
        return set.intersection(Set::empty().with(0));
    }
    set.without(0)
}

// The tables, for each step the rows that have it, and the steps that a row has. Vertices often have the same steps, and
// what is known of the latest goes from one to the next.
#[derive(Clone, Copy)]
pub struct Clearing<'a> {
    pub tables: &'a Tables<'a>,
    pub users: &'a [u64; 128],
    pub used: u64,
}

impl Clearing<'_> {
    // The rows with one of the steps, as they are known or found anew.
    fn rows_with(&self, known: &mut Latest, steps: u64) -> Set
        requires { Knows self.now.users.now known.old }
        ensures rows { Members (InSome self.now.users.now steps) result }
        ensures known { Knows self.now.users.now known.new }
    {
        if known.steps != steps {
            let users = self.users;
            known.rows = united(users, steps);
            known.steps = steps;
        }
        known.rows
    }

    // Of the transitions of v, the steps that match one of them, and the rows of the set that have a step for each of
    // them. Neighbours often have the same steps, and then nothing changes; those of a run are passed over.
    fn walk(&self, known: &mut Latest, v: usize, set: Set) -> Matches
        requires { (v < 128) × Knows self.now.users.now known.old }
        ensures { let t = self.now.tables.now in let k = t.chart.now in
            Walked t.at.now.into t.acting.now self.now.users.now k.body.now (get_or k.begins.now v 0)
            (get_or k.begins.now (v + 1) 0) set result
            × Knows self.now.users.now known.new }
    {
        let tables = self.tables;
        let a = tables.chart.begins[v];
        let b = tables.chart.begins[v + 1];
        if a >= b {
            return Matches {
                matched: 0,
                able: set,
            };
        }
        let mut matched = tables.matching(a);
        let mut last = matched;
        let mut able = set.intersection(self.rows_with(known, last));
        let mut i = tables.past_alike(a, b);
        // a turn ends where the steps may change
        while i < b {
            let next = tables.matching(i);
            if next != last {
                able = able.intersection(self.rows_with(known, next));
                matched = bit_or(matched, next);
                last = next;
            }
            i = tables.past_alike(i, b);
        }
        Matches { matched, able }
    }

    // The rows of the set that 43, 44 or 45 may refuse with v.
    fn refusable(&self, known: &mut Latest, v: usize, set: Set) -> Set
        requires { (v < 128) × Knows self.now.users.now known.old }
        ensures { let t = self.now.tables.now in
            Refusable t.at.now.into t.acting.now self.now.users.now self.now.used t.chart.now.body.now v set
            result
            × Knows self.now.users.now known.new }
    {
        if set.is_empty() {
            return set;
        }
        let walked = self.walk(known, v, same_ends(v, set));
        let able = walked.able;
        let users = self.users;
        let unmatched = united(users, bit_and_not(self.used, walked.matched));
        set.difference(able.difference(unmatched))
    }

    // Puts into a table of zeros for each chart vertex the rows that 43, 44 or 45 may refuse with it.
    pub(crate) fn gather(&self, columns: &[u64; 256], table: &mut [u64; 256])
        requires { table.old ≡ replicate 256 0 }
        ensures { let t = self.now.tables.now in
            Gathered columns.now t.at.now.into t.acting.now self.now.users.now self.now.used t.chart.now.body.now
            (vertices_of t.chart.now.body.now) table.new }
    {
        let n = self.tables.chart.vertices();
        let mut known = Latest {
            steps: 0,
            rows: Set::empty(),
        };
        for v in 0..n {
            let rows = self.refusable(&mut known, v, row(columns, v));
            put_row(table, v, rows);
        }
    }
}

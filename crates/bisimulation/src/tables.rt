// The tables by which the rows of the suspects are looked through: sets of rows, and the steps in use.
ghost use Rattle.std.specs.Prelude.{◌≡◌, ℕ, ◌<◌, replicate};
ghost use Rattle.bits.specs.Sets.{Has};
ghost use Rattle.bits.specs.Tables.{Table, Gains};
ghost use Rattle.bisimulation.specs.Suspects.{SameRow, Stretch, Column, SameWord, UsedBy, Used};

use super::rows::Relation;
use super::steps::Steps;
use bits::tables::spread;
use bits::{Set, bit_or};

// Puts a set into set w of a table, for each w of the vertices.
fn spread_over(table: &mut [u64; 256], vertices: Set, set: Set)
    ensures { Gains (λ (w z : ℕ). Has vertices w × Has set z) table.old table.new }
{
    spread(table, 0, vertices.lo, set);
    spread(table, 64, vertices.hi, set);
}

impl Relation<'_> {
    // The first row from u on that is not the same as row u, or else the number of rows.
    fn stretch(&self, u: usize) -> usize
        requires { u < self.now.rows }
        ensures { Stretch (SameRow self.now.bytes.now u) self.now.rows u result }
    {
        for b in u + 1..self.rows {
            if !self.same(u, b) {
                return b;
            }
        }
        self.rows
    }

    // Puts into a table of zeros for each chart vertex of a set the rows that are related to it. Neighbours often are the
    // same, and are then put in together.
    pub(crate) fn columns(&self, among: Set, table: &mut [u64; 256])
        requires { table.old ≡ replicate 256 0 }
        ensures { Table 128 (Column self.now.bytes.now among) table.new }
    {
        let mut u = 0;
        // rows that are the same are a turn: a turn ends where the next begins
        while u < self.rows {
            let b = self.stretch(u);
            let vertices = self.row(u).intersection(among);
            spread_over(table, vertices, Set::between(u, b));
            u = b;
        }
    }
}

impl Steps<'_> {
    // The first word from u on that is not the word of u, or else the number of rows. With a closure for the test, one
    // function for both would be longer than the two.
    fn stretch(&self, u: usize) -> usize
        requires { u < self.now.relation.rows }
        ensures { Stretch (SameWord self.now.words.now u) self.now.relation.rows u result }
    {
        for b in u + 1..self.relation.rows {
            if self.words[b] != self.words[u] {
                return b;
            }
        }
        self.relation.rows
    }

    // Puts into a table of zeros for each step the rows that have it.
    pub(crate) fn users(&self, table: &mut [u64; 128])
        requires { table.old ≡ replicate 128 0 }
        ensures { Table 64 (UsedBy self.now.words.now self.now.relation.rows) table.new }
    {
        let mut u = 0;
        // words that are the same are a turn
        while u < self.relation.rows {
            let b = self.stretch(u);
            spread(table, 0, self.words[u], Set::between(u, b));
            u = b;
        }
    }

    // The steps that a row has, as a word.
    pub(crate) fn used(&self) -> u64
        ensures { Used self.now.words.now self.now.relation.rows result }
    {
        let mut all = 0;
        for u in 0..self.relation.rows {
            all = bit_or(all, self.words[u]);
        }
        all
    }
}

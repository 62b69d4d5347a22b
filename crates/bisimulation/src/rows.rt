// The rows of a relation as sets of chart vertices.
ghost use Rattle.std.specs.Prelude.{◌≡◌, true, ◌↔◌, ◌+◌, ◌*◌, ◌≤◌, ◌<◌, length};
ghost use Rattle.bits.specs.Sets.{Members};
ghost use Rattle.bisimulation.specs.Answers.{Related};
ghost use Rattle.bisimulation.specs.Suspects.{SameRow};

use bits::{Set, has_bit, read_set};

// A relation between expression vertices and chart vertices: a row of 16 bytes for each expression vertex.
#[derive(Clone, Copy)]
pub struct Relation<'a> {
    pub bytes: &'a [u8],
    pub rows: usize,
    pub ghost whole: { length bytes.now ≡ 16 * rows },
    pub ghost few: { rows ≤ 128 },
}

impl Relation<'_> {
    // The vertices that expression vertex u is related to.
    pub(crate) fn row(&self, u: usize) -> Set
        requires { u < self.now.rows }
        ensures { Members (Related self.now.bytes.now u) result }
    {
        read_set(self.bytes, 16 * u)
    }

    // Whether expression vertex u is related to chart vertex v: one bit is asked, by its value.
    pub(crate) fn related(&self, u: usize, v: usize) -> bool
        requires { (u < self.now.rows) × (v < 128) }
        ensures { (result ≡ true) ↔ Related self.now.bytes.now u v }
    {
        has_bit(self.bytes, 16 * u, v)
    }

    // Whether rows a and b are the same.
    pub(crate) fn same(&self, a: usize, b: usize) -> bool
        requires { (a < self.now.rows) × (b < self.now.rows) }
        ensures { result ≡ true → SameRow self.now.bytes.now a b }
    {
        self.row(a) == self.row(b)
    }
}

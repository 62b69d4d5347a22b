// The steps of the expression's chart, which is not written.
ghost use Rattle.std.specs.Prelude.{◌*◌, ◌≤◌, ◌<◌};
ghost use Rattle.bisimulation.specs.Classes.{Stepped};
ghost use Rattle.bisimulation.specs.Places.{FirstPlace, StepPlace};

use super::rows::Relation;
use bits::{count_bits, count_bits_below};

// The steps of an expression's chart, and a relation with a row for each of its vertices. Key k is 256 times the action
// of step k, and its target; word u has a bit for each step of vertex u.
#[derive(Clone, Copy)]
pub struct Steps<'a> {
    pub keys: &'a [usize; 128],
    pub words: &'a [u64; 128],
    pub count: usize,
    pub relation: Relation<'a>,
    pub ghost stepped: { Stepped keys.now words.now count relation.rows relation.bytes.now },
}

impl Steps<'_> {
    // How many transitions leave a vertex below u: each has a bit.
    fn first_place(&self, u: usize) -> usize
        requires { u ≤ 128 }
        ensures { (result ≤ 64 * u) × FirstPlace self.now.words.now u result }
    {
        let mut at = 0;
        for x in 0..u {
            at += count_bits(self.words[x]);
        }
        at
    }

    // The index of the transition of vertex u for its step k.
    pub(crate) fn place(&self, u: usize, k: usize) -> usize
        requires { (u < 128) × (k < 64) }
        ensures { StepPlace self.now.words.now u k result }
    {
        self.first_place(u) + count_bits_below(self.words[u], k)
    }
}

// What the loops of a labelling are checked by, as one value.
ghost use Rattle.std.specs.Prelude.{◌≡◌};
ghost use Rattle.bits.specs.Tables.{WholeSets};
ghost use Rattle.chart.specs.Bodies.{vertices_of};
ghost use Rattle.witness.specs.Given.{LevelsFit};

use super::Labelling;
use reach::Reached;

// What the loops of a labelling are checked by: what the branches of each vertex reach, by one step and by more; where
// its entries lead to, and their lowest level; and for each level the vertices with an entry of it or of a higher one.
#[derive(Clone, Copy)]
pub struct LoopTables<'a> {
    pub labelling: Labelling<'a>,
    pub branches: Reached<'a>,
    pub entries: &'a [u64],
    pub low: &'a [u8; 128],
    pub high: &'a [u64],
    pub ghost all: { branches.to ≡ vertices_of labelling.chart.now.body.now },
    pub ghost from_first: { branches.from ≡ 0 },
    pub ghost whole: { ∥ WholeSets high.now ∥₁ },
    pub ghost levels_fit: { LevelsFit labelling.labels.now high.now },
}

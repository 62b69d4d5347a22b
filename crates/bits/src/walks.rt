// Going over the bits of a word and over the members of a set, the lowest first.
ghost use Rattle.std.specs.Prelude.{◌≡◌};
ghost use Rattle.std.specs.Iterator.{YieldsFirst, item_count};
ghost use Rattle.bits.specs.Listed.{places_left, members_left};

use super::{Set, lowest_bit, without_lowest};

// The places of the bits of a word that are set.
#[derive(Clone, Drop)]
pub struct BitPlaces {
    pub left: u64,
}

// The places of the bits of x that are set, the lowest first.
pub fn places(x: u64) -> BitPlaces
    ensures { result ≡ record { left = x } }
{
    BitPlaces { left: x }
}

impl Iterator for BitPlaces {
    type Item = usize;

    ghost next_gives = { YieldsFirst places_left };

    ghost remaining = { item_count places_left };

    fn next(&mut self) -> Option<usize> {
        if self.left == 0 {
            return None;
        }
        let k = lowest_bit(self.left);
        self.left = without_lowest(self.left);
        Some(k)
    }
}

// The numbers of a set.
#[derive(Clone, Drop)]
pub struct Numbers {
    pub left: Set,
}

impl Iterator for Numbers {
    type Item = usize;

    ghost next_gives = { YieldsFirst members_left };

    ghost remaining = { item_count members_left };

    fn next(&mut self) -> Option<usize> {
        if self.left.lo != 0 {
            let k = lowest_bit(self.left.lo);
            self.left.lo = without_lowest(self.left.lo);
            return Some(k);
        }
        if self.left.hi != 0 {
            let k = lowest_bit(self.left.hi);
            self.left.hi = without_lowest(self.left.hi);
            return Some(64 + k);
        }
        None
    }
}

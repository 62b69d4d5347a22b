// Sets of the numbers below 128.
ghost use Rattle.std.specs.Prelude.{◌≡◌, true, ◌≢◌, ◌⊎◌, ◌↔◌, ℕ, ◌+◌, ◌/◌, ◌%◌, ◌≤◌, ◌<◌, length, get_or, replicate};
ghost use Rattle.bits.specs.First.{First};
ghost use Rattle.bits.specs.Words.{On};
ghost use Rattle.bits.specs.Sets.{Has, empty_set, Empty, Members, Union, Intersection, Difference, Last};
ghost use Rattle.bits.specs.Sets.{size_of, half_of, BytesOf, Ones};

use super::{
    Numbers, bit_and, bit_and_not, bit_or, bits_below, count_bits, highest_bit, is_set, lowest_bit,
    read_u64, with_bit, with_value, without_lowest,
};

// A set of the numbers below 128: bit k of `lo` for k, bit k of `hi` for 64 + k.
#[derive(Clone, Copy, Debug, PartialEq, Eq, Hash)]
pub struct Set {
    pub lo: u64,
    pub hi: u64,
}

// A set, and a number that has come into it.
#[derive(Clone, Copy, Debug, PartialEq, Eq)]
pub struct Marked {
    pub set: Set,
    pub at: usize,
}

impl Set {
    pub fn empty() -> Set
        ensures { result ≡ empty_set }
    {
        Set { lo: 0, hi: 0 }
    }

    pub fn union(self, other: Set) -> Set
        ensures { Union self other result }
    {
        Set {
            lo: bit_or(self.lo, other.lo),
            hi: bit_or(self.hi, other.hi),
        }
    }

    pub fn intersection(self, other: Set) -> Set
        ensures { Intersection self other result }
    {
        Set {
            lo: bit_and(self.lo, other.lo),
            hi: bit_and(self.hi, other.hi),
        }
    }

    // What is in the set and not in the other.
    pub fn difference(self, other: Set) -> Set
        ensures { Difference self other result }
    {
        Set {
            lo: bit_and_not(self.lo, other.lo),
            hi: bit_and_not(self.hi, other.hi),
        }
    }

    // The set with w too, found without a branch.
    pub fn with(self, w: usize) -> Set
        requires { w < 128 }
        ensures { (y : ℕ) → Has result y ↔ (Has self y ⊎ (y ≡ w)) }
    {
        Set {
            lo: self.lo | (((1 - w / 64) as u64) << (w % 64)),
            hi: self.hi | (((w / 64) as u64) << (w % 64)),
        }
    }

    // The set with w too, by two lookups in the table of `fill_ones` and no shift.
    pub fn with_by(self, ones: &[u64; 192], w: usize) -> Set
        requires { ((n : ℕ) × (w < n) × Ones n ones.now) × (w < 128) }
        ensures { (y : ℕ) → Has result y ↔ (Has self y ⊎ (y ≡ w)) }
    {
        Set {
            lo: self.lo | ones[64 + w],
            hi: self.hi | ones[w],
        }
    }

    // The set with w too where the flag is set.
    pub fn with_if(self, w: usize, flag: bool) -> Set
        requires { w < 128 }
        ensures { (y : ℕ) → Has result y ↔ (Has self y ⊎ ((flag ≡ true) × (y ≡ w))) }
    {
        if flag { self.with(w) } else { self }
    }

    pub fn without(self, w: usize) -> Set
        requires { w < 128 }
        ensures { (y : ℕ) → Has result y ↔ (Has self y × (y ≢ w)) }
    {
        self.difference(Set::empty().with(w))
    }

    // The set without its lowest number.
    pub fn without_lowest(self) -> Set
        requires { ¬ Empty self }
        ensures { (u : ℕ) → First (Has self) 0 128 u → (y : ℕ) → Has result y ↔ (Has self y × (y ≢ u)) }
    {
        if self.lo != 0 {
            return Set {
                lo: without_lowest(self.lo),
                hi: self.hi,
            };
        }
        Set {
            lo: self.lo,
            hi: without_lowest(self.hi),
        }
    }

    pub fn is_empty(self) -> bool
        ensures { (result ≡ true) ↔ Empty self }
    {
        (self.lo == 0) & (self.hi == 0)
    }

    // The word of the two that has the bit of w.
    fn half(self, w: usize) -> u64
        ensures { result ≡ half_of self w }
    {
        if w < 64 { self.lo } else { self.hi }
    }

    pub fn contains(self, w: usize) -> bool
        ensures { (result ≡ true) ↔ Has self w }
    {
        (w < 128) & is_set(self.half(w), w % 64)
    }

    // The lowest number of the set, or 128: a place above all others, which callers compare. `members` gives an Option.
    pub fn lowest(self) -> usize
        ensures { First (Has self) 0 128 result }
    {
        if self.lo != 0 {
            return lowest_bit(self.lo);
        }
        if self.hi != 0 {
            return 64 + lowest_bit(self.hi);
        }
        128
    }

    // The set with the highest number of another one too, and that number. The second word is asked too, since the compiler
    // finds the highest bit of a word by one instruction where it sees that there is one.
    pub fn with_highest(self, other: Set) -> Marked
        requires { ¬ Empty other }
        ensures { Last other result.at × ((y : ℕ) → Has result.set y ↔ (Has self y ⊎ (y ≡ result.at))) }
    {
        if other.hi != 0 {
            let k = highest_bit(other.hi);
            let set = Set {
                lo: self.lo,
                hi: with_bit(self.hi, k),
            };
            return Marked { set, at: 64 + k };
        }
        if other.lo != 0 {
            let k = highest_bit(other.lo);
            let set = Set {
                lo: with_bit(self.lo, k),
                hi: self.hi,
            };
            return Marked { set, at: k };
        }
        // `requires` rules it out
        Marked { set: self, at: 0 }
    }

    // Its numbers, the lowest first.
    pub fn members(self) -> Numbers
        ensures { result ≡ record { left = self } }
    {
        Numbers { left: self }
    }

    // How many numbers are in the set.
    pub fn count(self) -> usize
        ensures { (result ≡ size_of self) × (result ≤ 128) }
    {
        count_bits(self.lo) + count_bits(self.hi)
    }

    // The numbers below b.
    pub fn below(b: usize) -> Set
        requires { b ≤ 128 }
        ensures { Members (λ (w : ℕ). w < b) result }
    {
        if b < 64 {
            return Set {
                lo: bits_below(b),
                hi: 0,
            };
        }
        Set {
            lo: bits_below(64),
            hi: bits_below(b - 64),
        }
    }

    // The numbers from a up to b.
    pub fn between(a: usize, b: usize) -> Set
        requires { (a ≤ b) × (b ≤ 128) }
        ensures { Members (λ (w : ℕ). (a ≤ w) × (w < b)) result }
    {
        Set::below(b).difference(Set::below(a))
    }
}

// What `with_by` looks up for the numbers below n, in a table of zeros: a number's bit stands 64 words above its place for
// the first word of a set, and at its place for the second.
pub fn fill_ones(ones: &mut [u64; 192], n: usize)
    requires { ones.old ≡ replicate 192 0 }
    ensures { Ones n ones.new }
{
    for k in 0..n.min(64) {
        ones[64 + k] = 1u64 << k;
    }
}

// Sixteen bytes from `at` on as a set: document 01's rows and follower states.
pub fn read_set(s: &[u8], at: usize) -> Set
    requires { at + 16 ≤ length s.now }
    ensures { Members (λ (w : ℕ). On (get_or s.now (at + w / 8) 0) (w % 8)) result }
{
    Set {
        lo: read_u64(s, at),
        hi: read_u64(s, at + 8),
    }
}

// The set as sixteen bytes, by the values of bits (document 02, C-13), and so not by `to_le_bytes`.
pub fn set_bytes(set: Set) -> [u8; 16]
    ensures { BytesOf set result }
{
    let mut bytes = [0u8; 16];
    for v in set.members() {
        let byte = &mut bytes[v / 8];
        *byte = with_value(*byte, v % 8);
    }
    bytes
}

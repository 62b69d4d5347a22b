// Bytes as numbers, sets of numbers as bits of bytes (document 01: relations, follower states), and words of 64 bits.
#![tactic(auto)]

mod actions;
mod sets;
pub mod tables;
mod walks;

ghost use Rattle.std.specs.Prelude.{◌≡◌, true, ◌≢◌, ◌⊎◌, ◌↔◌, ℕ, ◌+◌, ◌*◌, ◌/◌, ◌%◌, ◌≤◌, ◌<◌, ◌^◌, length, get_or};
ghost use Rattle.bits.specs.Bits.{HighestByte};
ghost use Rattle.bits.specs.Words.{On, LowestOn, HighestOn, With, Without};
ghost use Rattle.bits.specs.First.{First};
ghost use Rattle.bits.specs.Counts.{bits_below};
ghost use Rattle.bits.specs.Packed.{two_at, four_at, Packed};

pub use actions::{Actions, action_bytes, read_actions};
pub use sets::{Marked, Set, fill_ones, read_set, set_bytes};
pub use walks::{BitPlaces, Numbers, places};

// The numbers from one up to another.
#[derive(Clone, Copy, Debug, PartialEq, Eq, Hash)]
pub struct Span {
    pub from: usize,
    pub to: usize,
}

// A byte as a number, with its bound.
pub fn byte(s: &[u8], i: usize) -> usize
    requires { i < length s.now }
    ensures { (result ≡ get_or s.now i 0) × (result < 256) }
{
    usize::from(s[i])
}

// Two bytes from `at` on as one number, the first the lowest.
pub fn read_u16(s: &[u8], at: usize) -> usize
    requires { at + 2 ≤ length s.now }
    ensures { (result ≡ two_at s.now at) × (result < 65536) }
{
    usize::from(u16::from_le_bytes([s[at], s[at + 1]]))
}

// Four bytes from `at` on as one number. Where its bytes are indexed in one function, the compiler makes them one load.
pub fn read_u32(s: &[u8], at: usize) -> u32
    requires { at + 4 ≤ length s.now }
    ensures { (result ≡ four_at s.now at) × Packed s.now at 4 result }
{
    u32::from_le_bytes([s[at], s[at + 1], s[at + 2], s[at + 3]])
}

// Eight bytes from `at` on as one word.
pub fn read_u64(s: &[u8], at: usize) -> u64
    requires { at + 8 ≤ length s.now }
    ensures { Packed s.now at 8 result }
{
    let low = read_u32(s, at);
    let high = read_u32(s, at + 4);
    u64::from(low) + (u64::from(high) << 32)
}

// The highest of some bytes, or 0.
pub fn highest_byte(bytes: &[u8]) -> usize
    ensures { (result < 256) × HighestByte bytes.now result }
{
    let mut top = 0u8;
    for byte in bytes {
        top = top.max(*byte);
    }
    usize::from(top)
}

// What each bit of a byte is worth, bit 0 first; in hex, to be read beside a hex dump (document 02, C-13).
const BIT_VALUES: [u8; 8] = [0x01, 0x02, 0x04, 0x08, 0x10, 0x20, 0x40, 0x80];

// What bit i of a byte is worth.
pub fn value(i: usize) -> usize
    requires { i < 8 }
    ensures { result ≡ 2 ^ i }
{
    usize::from(BIT_VALUES[i])
}

// The byte with bit i too.
pub fn with_value(byte: u8, i: usize) -> u8
    requires { i < 8 }
    ensures { With byte i result }
{
    byte | (value(i) as u8)
}

// Whether v is in the set whose bytes stand from `at` on.
pub fn has_bit(s: &[u8], at: usize, v: usize) -> bool
    requires { at + v / 8 < length s.now }
    ensures { (result ≡ true) ↔ On (get_or s.now (at + v / 8) 0) (v % 8) }
{
    byte(s, at + v / 8) & value(v % 8) != 0
}

// The lowest bit of a word that is set.
pub fn lowest_bit(x: u64) -> usize
    requires { x ≢ 0 }
    ensures { LowestOn x result }
{
    x.trailing_zeros() as usize
}

// The highest bit of a word that is set.
pub fn highest_bit(x: u64) -> usize
    requires { x ≢ 0 }
    ensures { HighestOn x result }
{
    63 - x.leading_zeros() as usize
}

// The word with bit k too.
pub fn with_bit(x: u64, k: usize) -> u64
    requires { k < 64 }
    ensures { With x k result }
{
    x | (1u64 << k)
}

// The word without its lowest bit.
pub fn without_lowest(x: u64) -> u64
    requires { x ≢ 0 }
    ensures { (k : ℕ) → LowestOn x k → Without x k result }
{
    x & (x - 1)
}

// The bits of either word.
pub fn bit_or(x: u64, y: u64) -> u64
    ensures { (j : ℕ) → On result j ↔ (On x j ⊎ On y j) }
{
    x | y
}

// The bits of both words.
pub fn bit_and(x: u64, y: u64) -> u64
    ensures { (j : ℕ) → On result j ↔ (On x j × On y j) }
{
    x & y
}

// The bits of x that are not bits of y.
pub fn bit_and_not(x: u64, y: u64) -> u64
    ensures { (j : ℕ) → On result j ↔ (On x j × (¬ On y j)) }
{
    x & !y
}

// How many bits of a word are set.
pub fn count_bits(x: u64) -> usize
    ensures { (result ≡ bits_below x 64) × (result ≤ 64) }
{
    x.count_ones() as usize
}

// How many bits of a word below bit k are set.
pub fn count_bits_below(x: u64, k: usize) -> usize
    requires { k < 64 }
    ensures { (result ≡ bits_below x k) × (result ≤ 64) }
{
    count_bits(x % (1u64 << k))
}

// The word with the bits below k.
pub fn bits_below(k: usize) -> u64
    requires { k ≤ 64 }
    ensures { (j : ℕ) → On result j ↔ (j < k) }
{
    if k == 64 {
        return u64::MAX;
    }
    (1u64 << k) - 1
}

// Whether two words have a bit in common.
pub fn meets(x: u64, y: u64) -> bool
    ensures { (result ≡ true) ↔ ((k : ℕ) × On x k × On y k) }
{
    bit_and(x, y) != 0
}

// Whether bit k is set.
pub fn is_set(x: u64, k: usize) -> bool
    requires { k < 64 }
    ensures { (result ≡ true) ↔ On x k }
{
    (x >> k) & 1 == 1
}

// The bits of x from k on, each moved down by k places.
pub fn shift_right(x: u64, k: usize) -> u64
    requires { k < 64 }
    ensures { (j : ℕ) → On result j ↔ On x (k + j) }
{
    x >> k
}

// The lowest bit of a word, from k on, that is set; or 64, a place above all others.
pub fn lowest_bit_from(x: u64, k: usize) -> usize
    requires { k < 64 }
    ensures { First (On x) k 64 result }
{
    let high = shift_right(x, k);
    if high == 0 {
        return 64;
    }
    k + lowest_bit(high)
}

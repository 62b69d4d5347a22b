// A list of loops in bytes, two a loop: its start, then its level. Places count loops, from 0.
ghost use Rattle.std.specs.Prelude.{◌≡◌, true, ◌↔◌, ℕ, ◌+◌, ◌*◌, ◌/◌, ◌<◌, length, MatchOption};
ghost use Rattle.theory.specs.Least.{Least};
ghost use Rattle.bits.specs.Sets.{Has};
ghost use Rattle.elimination.specs.TogetherAnswers.{LoopListFits};
ghost use Rattle.elimination.specs.LoopLists.{start_at, level_at, StandsBefore};

use bits::{Set, byte};

// The start and the level of the loop at place i.
pub(crate) fn loop_at(loops: &[u8], i: usize) -> (usize, usize)
    requires { 2 * i + 1 < length loops.now }
    ensures { (result.0 ≡ start_at loops.now i) × (result.1 ≡ level_at loops.now i) }
{
    (byte(loops, 2 * i), byte(loops, 2 * i + 1))
}

// Whether the loop at place i stands at an earlier place too.
fn stands_before(loops: &[u8], i: usize) -> bool
    requires { 2 * i + 1 < length loops.now }
    ensures { (result ≡ true) ↔ StandsBefore loops.now i }
{
    let here = loop_at(loops, i);
    for j in 0..i {
        if loop_at(loops, j) == here {
            return true;
        }
    }
    false
}

// Whether 56 passes: whole loops, at most 64, none twice.
pub(crate) fn list_fits(loops: &[u8]) -> bool
    ensures { (result ≡ true) ↔ LoopListFits loops.now }
{
    let n = loops.len();
    if (n % 2 != 0) | (n > 128) {
        return false;
    }
    for i in 0..n / 2 {
        if stands_before(loops, i) {
            return false;
        }
    }
    true
}

// The lowest place of a loop whose start is in the set, if there is one.
pub(crate) fn start_in(loops: &[u8], set: Set) -> Option<usize>
    ensures { MatchOption result ((i : ℕ) → i < length loops.now / 2 → ¬ Has set (start_at loops.now i))
        (λ p. (p < length loops.now / 2) × Least (λ (i : ℕ). Has set (start_at loops.now i)) p) }
{
    for i in 0..loops.len() / 2 {
        if set.contains(loop_at(loops, i).0) {
            return Some(i);
        }
    }
    None
}

// Sets of actions: of the numbers below 256.
ghost use Rattle.std.specs.Prelude.{◌≡◌, true, ◌⊎◌, ◌↔◌, ℕ, ◌+◌, ◌/◌, ◌%◌, ◌≤◌, length, get_or};
ghost use Rattle.bits.specs.Words.{On};
ghost use Rattle.bits.specs.Actions.{half_with, HasAction, no_actions, NoAction, ActionsWith};
ghost use Rattle.bits.specs.Actions.{action_count, ActionBytes};

use super::{Set, read_set, set_bytes};

// A set of the numbers below 256: `low` has those below 128, `high` the others, each less 128.
#[derive(Clone, Copy, Debug, PartialEq, Eq, Hash)]
pub struct Actions {
    pub low: Set,
    pub high: Set,
}

impl Actions {
    pub fn empty() -> Actions
        ensures { result ≡ no_actions }
    {
        Actions {
            low: Set::empty(),
            high: Set::empty(),
        }
    }

    pub fn union(self, other: Actions) -> Actions
        ensures { (a : ℕ) → HasAction result a ↔ (HasAction self a ⊎ HasAction other a) }
    {
        Actions {
            low: self.low.union(other.low),
            high: self.high.union(other.high),
        }
    }

    // The half of the two that has a.
    fn half(self, a: usize) -> Set
        ensures { result ≡ half_with self a }
    {
        if a < 128 { self.low } else { self.high }
    }

    pub fn contains(self, a: usize) -> bool
        ensures { (result ≡ true) ↔ HasAction self a }
    {
        (a < 256) & self.half(a).contains(a % 128)
    }

    pub fn is_empty(self) -> bool
        ensures { (result ≡ true) ↔ NoAction self }
    {
        self.low.is_empty() & self.high.is_empty()
    }

    // How many numbers are in the set.
    pub fn count(self) -> usize
        ensures { (result ≡ action_count self) × (result ≤ 256) }
    {
        self.low.count() + self.high.count()
    }
}

// Thirty-two bytes from `at` on as a set of actions.
pub fn read_actions(s: &[u8], at: usize) -> Actions
    requires { at + 32 ≤ length s.now }
    ensures { ActionsWith (λ (a : ℕ). On (get_or s.now (at + a / 8) 0) (a % 8)) result }
{
    Actions {
        low: read_set(s, at),
        high: read_set(s, at + 16),
    }
}

// The set as thirty-two bytes.
pub fn action_bytes(set: Actions) -> [u8; 32]
    ensures { ActionBytes set result }
{
    let mut bytes = [0u8; 32];
    bytes[..16].copy_from_slice(&set_bytes(set.low));
    bytes[16..].copy_from_slice(&set_bytes(set.high));
    bytes
}

// The chart's body written into lent bytes, from the keys and a word for each vertex.
ghost use Rattle.std.specs.Prelude.{◌≡◌, [], ◌∷◌, ◌++◌, ℕ, ◌+◌, ◌<◌, ◌≤◌, length, get_or};
ghost use Rattle.std.proofs.lemmas.List.Edits.{sets};
ghost use Rattle.expression.specs.Body.{four_of, flat, head_of};
ghost use Rattle.expression.specs.Listing.{transition_of, word_transitions, listing, KeysFit, Stored};

// Four bytes from index at on: the head, or a transition. By four stores: `copy_from_slice` from an array of four took
// `write_chart` 9 in 100 more instructions.
fn write_four(out: &mut [u8], at: usize, a: u8, b: u8, c: u8, d: u8)
    requires { at + 4 ≤ length out.old }
    ensures { out.new ≡ sets out.old at (four_of a b c d) }
{
    out[at] = a;
    out[at + 1] = b;
    out[at + 2] = c;
    out[at + 3] = d;
}

// The transition of rank i from the vertex of node k; the next index.
fn write_transition(out: &mut [u8], at: usize, keys: &[usize; 128], k: usize, i: usize) -> usize
    requires { (k < 128) × (i < 128) × (get_or keys.now i 0 < 65536) × (at + 4 ≤ length out.old) }
    ensures { Stored out.old at
        (flat (transition_of keys.now k i ∷ []))
        out.new result }
{
    let key = keys[i];
    write_four(
        out,
        at,
        (k + 1) as u8,
        (key / 256) as u8,
        (key % 256) as u8,
        0,
    );
    at + 4
}

// The transitions from the vertex of node k, one for each bit of its word, the lowest first: keys rise, so that they
// ascend. The next index.
fn write_leaving(out: &mut [u8], at: usize, keys: &[usize; 128], k: usize, word: u64) -> usize
    requires { (k < 128)
        × KeysFit keys.now word
        × (at + length (flat (word_transitions keys.now k word)) ≤ length out.old) }
    ensures { Stored out.old at
        (flat (word_transitions keys.now k word))
        out.new result }
{
    let mut p = at;
    // by hand, since of what a walk over `places` has left it isn't known that it fits a word
    let mut left = word;
    while left != 0 {
        let i = bits::lowest_bit(left);
        left = bits::without_lowest(left);
        p = write_transition(out, p, keys, k, i);
    }
    p
}

// All transitions, past the head.
fn write_transitions<'a>(out: &mut [u8], n: usize, keys: &'a [usize; 128], words: &'a [u64; 128])
    requires { (n < 128)
        × ((u : ℕ) → KeysFit keys.now (get_or words.now u 0))
        × (4 + length (flat (listing keys.now words.now 0 n)) ≤ length out.old) }
    ensures { out.new ≡ sets out.old 4
        (flat (listing keys.now words.now 0 n)) }
{
    let mut at: usize = 4;
    for k in 0..n {
        at = write_leaving(out, at, keys, k, words[k + 1]);
    }
}

// The whole body, into bytes that have room for it.
pub(crate) fn write_body<'a>(
    out: &mut [u8],
    n: usize,
    t: usize,
    keys: &'a [usize; 128],
    words: &'a [u64; 128],
)
    requires { (n < 128)
        × (t < 65536)
        × ((u : ℕ) → KeysFit keys.now (get_or words.now u 0))
        × (4 + length (flat (listing keys.now words.now 0 n)) ≤ length out.old) }
    ensures { out.new ≡ sets out.old 0
        (head_of n t ++ flat (listing keys.now words.now 0 n)) }
{
    write_four(
        out,
        0,
        (n + 1) as u8,
        n as u8,
        (t % 256) as u8,
        (t / 256) as u8,
    );
    write_transitions(out, n, keys, words);
}

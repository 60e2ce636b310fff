// A 64-bit word as a set of the numbers below 64: the number v is in it where bit v is set.
ghost use Rattle.std.specs.Prelude.{◌≡◌, ℕ, ◌%◌, ◌<◌, max, false, not, ◌&&◌, ◌||◌, length, IfSome, MatchOption, ◌==◌, nat_lt, slice_index};
ghost use Rattle.sets.specs.Masks.{bit, count, First, greatest, names};

// The set with nothing in it.
pub fn empty() -> u64
    ensures { (v : ℕ) → bit result v ≡ false }
{
    0
}

// The set of v alone, where v is below 64.
pub fn single(v: u8) -> u64
    ensures { (w : ℕ) → bit result w ≡ (w == v % 64) }
{
    1u64 << (v & 63)
}

// The set of one number, or of none.
pub fn mask_of(number: Option<u8>) -> u64
    requires { IfSome number (λ v. v < 64) }
    ensures { (v : ℕ) → bit result v ≡ names number v }
{
    match number {
        Some(v) => single(v),
        None => empty(),
    }
}

// The numbers below n: all 64 of them where n is 64 or more.
pub fn below(n: u8) -> u64
    ensures { (v : ℕ) → bit result v ≡ (nat_lt v n && nat_lt v 64) }
{
    if n < 64 { (1u64 << n) - 1 } else { u64::MAX }
}

// What is in a or in b.
pub fn union(a: u64, b: u64) -> u64
    ensures { (v : ℕ) → bit result v ≡ (bit a v || bit b v) }
{
    a | b
}

// What is in a and not in b.
pub fn without(a: u64, b: u64) -> u64
    ensures { (v : ℕ) → bit result v ≡ (bit a v && not (bit b v)) }
{
    a & !b
}

// What is in a and in b.
pub fn intersection(a: u64, b: u64) -> u64
    ensures { (v : ℕ) → bit result v ≡ (bit a v && bit b v) }
{
    a & b
}

// Whether v, which is below 64, is in the set.
pub fn has(m: u64, v: u8) -> bool
    requires { v < 64 }
    ensures { result ≡ bit m v }
{
    (m >> v) & 1 == 1
}

// The lowest number in the set, if any.
pub fn lowest(m: u64) -> Option<u32>
    ensures { MatchOption result ((v : ℕ) → bit m v ≡ false) (λ t. (t < 64) × First (bit m) t) }
{
    if m == 0 {
        None
    } else {
        Some(m.trailing_zeros())
    }
}

// How many numbers are in the set.
pub fn size(m: u64) -> u32
    ensures { result ≡ count 64 (bit m) }
{
    m.count_ones()
}

// The greater of the greatest size so far and that of one more set.
fn greater(most: u32, word: u64) -> u32
    ensures { result ≡ max most (count 64 (bit word)) }
{
    most.max(size(word))
}

// The size of the largest of the sets.
pub fn greatest_size(words: &[u64]) -> u32
    ensures { result ≡ greatest (λ n. count 64 (bit (slice_index words.now n))) (length words.now) }
{
    let mut most: u32 = 0;
    for word in words {
        most = greater(most, *word);
    }
    most
}

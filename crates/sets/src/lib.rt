#![tactic(auto)]

// Sets of numbers below 1,024 as sixteen 64-bit words.
ghost use Rattle.std.specs.Prelude.{◌≡◌, ◌≢◌, true, false, ℕ, ◌*◌, ◌≤◌, ◌<◌, length};
ghost use Rattle.sets.specs.Member.{bit, member, count_below, Inserted};
ghost use Rattle.sets.specs.Lowest.{IsLowest};

// The pair of kept sets of a cut.
#[derive(Drop)]
pub struct KeptSets {
    pub places: [u64; 16],
    pub transitions: [u64; 16],
}

// A set of numbers below 1,024 is 16 words: n is a member if bit n % 64 of word n / 64 is 1.
pub fn contains(words: &[u64; 16], n: usize) -> bool
    requires { n < 1024 }
    ensures { result ≡ member words.now n }
{
    let w = words[n / 64];
    (w >> (n % 64)) % 2 == 1
}

// Adds n to a set.
pub fn insert(words: &mut [u64; 16], n: usize)
    requires { (n < 1024) × (length words.old ≡ 16) }
    ensures { Inserted n words.old words.new }
{
    let i = n / 64;
    words[i] = words[i] | (1u64 << (n % 64));
}

// The set with n added.
pub fn with(words: [u64; 16], n: usize) -> [u64; 16]
    requires { n < 1024 }
    ensures { Inserted n words result }
{
    let mut next = words;
    insert(&mut next, n);
    next
}

// The lowest bit that is 1, of a word that has one: as many zeros stand below it.
fn zeros_below(w: u64) -> u32
    requires { w ≢ 0 }
    ensures { (result < 64) × (bit w result ≡ true) × ((k : ℕ) → k < result → bit w k ≡ false) }
{
    u64::trailing_zeros(w)
}

// The lowest bit that is 1.
pub fn lowest_bit(w: u64) -> Option<usize>
    ensures { IsLowest 64 (bit w) result }
{
    if w == 0 {
        return None;
    }
    Some(zeros_below(w) as usize)
}

// How many bits are 1.
fn count_bits(w: u64) -> usize
    ensures { result ≡ count_below (bit w) 64 }
{
    u64::count_ones(w) as usize
}

// How many members the first n words have.
pub fn count(words: &[u64; 16], n: usize) -> usize
    requires { n ≤ 16 }
    ensures { result ≡ count_below (member words.now) (n * 64) }
{
    let mut total: usize = 0;
    for w in &words[..n] {
        total += count_bits(*w);
    }
    total
}

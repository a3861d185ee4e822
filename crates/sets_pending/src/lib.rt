#![tactic(auto)]

// Sets of places lent as sixteen 64-bit words: kept places, and those of them whose transitions have been gone through.
ghost use Rattle.std.specs.Prelude.{◌≡◌, not, ◌&&◌, ℕ, ◌≤◌, ◌<◌, T, eqb, length};
ghost use Rattle.sets.specs.Member.{bit, member};
ghost use Rattle.sets_pending.specs.Growing.{MarksBelow, Marked, PlacesKept, LowestPending};

// A mark for each word that has a number below n.
pub fn marks_below(n: usize) -> u64
    requires { n ≤ 1024 }
    ensures { MarksBelow n result }
{
    65535u64 >> (16 - (n + 63) / 64)
}

// Keeps the place p, and marks its word: only marked words may have a pending place.
pub fn keep(places: &mut [u64; 16], marks: u64, p: usize) -> u64
    requires { (p < 1024) × (length places.old ≡ 16) }
    ensures { PlacesKept (λ k. eqb k p) marks (result) places.old places.new }
{
    sets::insert(places, p);
    marks | (1u64 << (p / 64))
}

// The marks without word i.
fn without(marks: u64, i: usize) -> u64
    requires { i < 64 }
    ensures { (k : ℕ) → bit result k ≡ not (eqb k i) && bit marks k }
{
    let bit = 1u64 << i;
    (marks | bit) ^ bit
}

// The lowest pending place: kept, and not gone through. Words without one lose their mark.
pub fn lowest(places: &[u64; 16], gone: &[u64; 16], marks: &mut u64) -> Option<usize>
    requires { ((k : ℕ) → T (member gone.now k) → T (member places.now k)) × Marked places.now (member gone.now) marks.old }
    ensures { LowestPending places.now gone.now marks.new (result) }
{
    while let Some(i) = sets::lowest_bit(*marks) {
        if let Some(z) = sets::lowest_bit(places[i] ^ gone[i]) {
            return Some(i * 64 + z);
        }
        *marks = without(*marks, i);
    }
    None
}

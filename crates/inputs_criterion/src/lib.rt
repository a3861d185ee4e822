#![tactic(auto)]

// The criterion: refusals 9 and 10.
ghost use Rattle.std.specs.Prelude.{◌≡◌, ◌||◌, ◌+◌, ◌*◌, ◌≤◌, ◌<◌, ltb, leb, length, take};
ghost use Rattle.refusals.specs.Numbers.{refusal_number};
ghost use Rattle.file.specs.Layout.{words_from};
ghost use Rattle.file.specs.Criterion.{places_refusal, criterion_refusal, criterion_bytes_refusal};

use file_words::get16;
use refusals::Refusal;

// Is the number no place, or not above the one before?
fn misplaced(q: usize, least: usize, places: usize) -> bool
    ensures { result ≡ (leb places q || ltb q least) }
{
    (places <= q) | (q < least)
}

// Checks a criterion for a plan of `places` places.
pub fn check(q: &[u16], places: usize) -> Result<(), Refusal>
    ensures { refusal_number result ≡ criterion_refusal places q.now }
{
    let mut least: usize = 0;
    for next in q {
        let x = usize::from(*next);
        if misplaced(x, least, places) {
            return Err(Refusal::Place);
        }
        least = x + 1;
    }
    Ok(())
}

// Checks `count` places of 2 bytes.
fn check_places(q: &[u8], count: usize, places: usize) -> Result<(), Refusal>
    requires { 2 * count ≤ length q.now }
    ensures { refusal_number result ≡ places_refusal places 0 (words_from q.now 0 count) }
{
    let mut least: usize = 0;
    for i in 0..count {
        let next = get16(q, 2 * i);
        if misplaced(next, least, places) {
            return Err(Refusal::Place);
        }
        least = next + 1;
    }
    Ok(())
}

// Checks a criterion of 2 bytes a place, low byte first.
pub fn check_bytes(q: &[u8], places: usize) -> Result<(), Refusal>
    ensures { refusal_number result ≡ criterion_bytes_refusal places q.now }
{
    let n = q.len();
    if n % 2 != 0 {
        return Err(Refusal::Criterion);
    }
    check_places(q, n / 2, places)
}

// The first `count` places of such a criterion, as numbers.
pub fn decode(q: &[u8], count: usize, list: &mut [u16])
    requires { (2 * count ≤ length q.now) × (count ≤ length list.old) }
    ensures { take count list.new ≡ words_from q.now 0 count }
{
    if count == 0 {
        return;
    }
    // most criteria have one place, and the compiler makes a call of memcpy of the loop: the first place stands apart
    list[0] = get16(q, 0) as u16;
    for i in 1..count {
        list[i] = get16(q, 2 * i) as u16;
    }
}

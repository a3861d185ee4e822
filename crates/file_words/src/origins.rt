// The origins of a slice: refusal 8.
ghost use Rattle.std.specs.Prelude.{◌≡◌, ◌+◌, ◌*◌, ◌<◌, ◌≤◌, length, eqb};
ghost use Rattle.refusals.specs.Numbers.{refusal_number};
ghost use Rattle.file_words.specs.Refusal.{table_refusal};

use crate::get16;
use refusals::Refusal;

// Do `count` numbers from `start` on rise strictly? All are gone through, so that the loop can be done by vectors.
fn rises(file: &[u8], start: usize, count: usize) -> bool
    requires { start + 2 * count ≤ length file.now }
    ensures { result ≡ eqb (table_refusal file.now start 0 count) 0 }
{
    let mut falls = false;
    for j in 1..count {
        let at = start + 2 * (j - 1);
        falls = falls | (get16(file, at + 2) <= get16(file, at));
    }
    !falls
}

// Checks that `count` numbers from `start` on rise strictly.
pub fn check(file: &[u8], start: usize, count: usize) -> Result<(), Refusal>
    requires { start + 2 * count ≤ length file.now }
    ensures { refusal_number result ≡ table_refusal file.now start 0 count }
{
    if rises(file, start, count) {
        Ok(())
    } else {
        Err(Refusal::Origins)
    }
}

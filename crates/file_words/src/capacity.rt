// Markings and caps of an edition 2 file: refusal 16.
ghost use Rattle.std.specs.Prelude.{◌≡◌, ◌+◌, ◌*◌, ◌≤◌, eqb, length};
ghost use Rattle.refusals.specs.Numbers.{refusal_number};
ghost use Rattle.file_words.specs.Refusal.{caps_refusal, over_cap};

use crate::get32;
use refusals::Refusal;

// Is the marking above a cap that is not 0?
fn over(marking: usize, cap: usize) -> bool
    ensures { result ≡ over_cap marking cap }
{
    (cap != 0) & (cap < marking)
}

// Is no marking of `count` places from `start` on above its cap? All are gone through, with no branch on which have a cap.
fn bounded(file: &[u8], start: usize, count: usize) -> bool
    requires { start + 8 * count ≤ length file.now }
    ensures { result ≡ eqb (caps_refusal file.now start count) 0 }
{
    let mut above = false;
    for p in 0..count {
        let at = start + 8 * p;
        above = above | over(get32(file, at), get32(file, at + 4));
    }
    !above
}

// Checks that no marking of `count` places from `start` on is above its cap.
pub fn check(file: &[u8], start: usize, count: usize) -> Result<(), Refusal>
    requires { start + 8 * count ≤ length file.now }
    ensures { refusal_number result ≡ caps_refusal file.now start count }
{
    if bounded(file, start, count) {
        Ok(())
    } else {
        Err(Refusal::Cap)
    }
}

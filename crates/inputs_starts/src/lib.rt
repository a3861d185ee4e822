#![tactic(auto)]

// Markings to start from: refusals 22 and 24.
ghost use Rattle.std.specs.Prelude.{◌≡◌, ℕ, ◌<◌, ◌≤◌, ltb, length};
ghost use Rattle.refusals.specs.Numbers.{refusal_number};
ghost use Rattle.file_header.specs.Facts.{Placed};
ghost use Rattle.file.specs.Layout.{net_from};
ghost use Rattle.promise.specs.Together.{standing};
ghost use Rattle.promise.specs.Starts.{too_many, overfull as overfull_of, start_refusal};

use file_header::Header;
use refusals::Refusal;

// The most tokens that a place may have in a start: its cap, or where it has none what a file can hold. Both are at hand, so that there is no branch on which places have a cap.
fn limit(cap: usize) -> u64
    requires { cap < 4294967296 }
    ensures { (tokens : ℕ) → ltb result tokens ≡ too_many tokens cap }
{
    if cap == 0 { 4294967295 } else { cap as u64 }
}

// Has some place of the net too many in a marking that has an entry for each place?
pub fn overfull(file: &[u8], h: Header, marking: &[u64]) -> bool
    requires placed { Placed (length file.now) h }
    requires places_in_bounds { h.places ≤ length marking.now }
    ensures { result ≡ overfull_of (net_from file.now h) (standing marking.now) }
{
    for p in 0..h.places {
        let most = limit(file::cap(file, h, p));
        if most < marking[p] {
            return true;
        }
    }
    false
}

// Checks a start for a file that was read.
pub fn check(file: &[u8], h: Header, start: &[u64]) -> Result<(), Refusal>
    requires { Placed (length file.now) h }
    ensures { refusal_number result ≡ start_refusal (net_from file.now h) start.now }
{
    if start.len() != h.places {
        return Err(Refusal::Entries);
    }
    if overfull(file, h, start) {
        return Err(Refusal::Tokens);
    }
    Ok(())
}

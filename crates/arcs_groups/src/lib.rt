#![tactic(auto)]

// Parallel arcs stand next to each other: where such a group ends, and the sum of its weights.
ghost use Rattle.std.specs.Prelude.{◌≡◌, true, ◌&&◌, ◌+◌, ◌-◌, ◌*◌, ◌/◌, ◌%◌, ◌≤◌, eqb};
ghost use Rattle.arcs_groups.specs.Groups.{GroupEnd, Stands, run_weight};

use file_arcs::{PLACE, WEIGHT, word};
use file_words::get16;

// Do two arcs, each as one number, join the same two in one direction?
fn parallel(v: usize, w: usize) -> bool
    ensures { result ≡ eqb (v % 16777216) (w % 16777216) && eqb (v / 4294967296 % 65536) (w / 4294967296 % 65536) }
{
    (v % 16777216 == w % 16777216) & (v / PLACE % 65536 == w / PLACE % 65536)
}

// Is the arc after arc j, of the arcs up to arc `to`, at another place? Then arc j is a group of its own.
pub fn alone(file: &[u8], start: usize, j: usize, to: usize) -> bool
    requires { Stands file.now start j to }
    ensures { result ≡ true → GroupEnd file.now start j to (j + 1) }
{
    let at = start + 8 * j;
    j + 1 == to || get16(file, at + 12) != get16(file, at + 4)
}

// A group of parallel arcs: one past its last arc, and the sum of the weights.
#[derive(Clone, Copy, Debug, PartialEq, Eq)]
pub struct Grouped {
    pub end: usize,
    pub weight: usize,
}

// The group that starts with arc j, of the arcs up to arc `to`, arc by arc.
fn several(file: &[u8], start: usize, j: usize, to: usize) -> Grouped
    requires { Stands file.now start j to }
    ensures { GroupEnd file.now start j to result.end × (result.weight ≡ run_weight file.now start j (result.end - j)) × (result.weight ≤ 65535 * (result.end - j)) }
{
    let w = word(file, start + 8 * j);
    let mut sum = w / WEIGHT;
    for e in j + 1..to {
        let v = word(file, start + 8 * e);
        if !parallel(v, w) {
            return Grouped {
                end: e,
                weight: sum,
            };
        }
        sum += v / WEIGHT;
    }
    Grouped {
        end: to,
        weight: sum,
    }
}

// The same; mostly arc j is alone.
pub fn group(file: &[u8], start: usize, j: usize, to: usize) -> Grouped
    requires { Stands file.now start j to }
    ensures { GroupEnd file.now start j to result.end × (result.weight ≡ run_weight file.now start j (result.end - j)) × (result.weight ≤ 65535 * (result.end - j)) }
{
    if alone(file, start, j, to) {
        return Grouped {
            end: j + 1,
            weight: get16(file, start + 8 * j + 6),
        };
    }
    several(file, start, j, to)
}

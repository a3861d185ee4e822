#![tactic(auto)]

// What one transition does: its effect on a place, and where its arcs stand in a file.
ghost use Rattle.std.specs.Prelude.{◌≡◌, ◌+◌, ◌*◌, ◌<◌, ◌≤◌, ◌^◌, length, pos, ◌-ℤ◌};
ghost use Rattle.net.specs.Net.{effect as effect_on};
ghost use Rattle.arcs_column.specs.Gain.{sum_to};
ghost use Rattle.file.specs.Facts.{Sound};
ghost use Rattle.file.specs.Layout.{net_from};
ghost use Rattle.arcs_effect.specs.Runs.{Within, FromPlace, PartOf, run_of};

use arcs_starts::{first_from, next_from};
use file_header::Header;

// The first of the arcs `from` to `to` whose place is not below the place, by halving: they are of one transition and one direction.
fn place_from(file: &[u8], start: usize, from: usize, to: usize, place: usize) -> usize
    requires { Within file.now start from to }
    ensures { FromPlace file.now start from to place result }
{
    let mut low = from;
    let mut high = to;
    while low < high {
        let middle = (low + high) / 2;
        let a = file_arcs::arc(file, start + 8 * middle);
        if a.place < place {
            low = middle + 1;
        } else {
            high = middle;
        }
    }
    low
}

// The weights of the arcs `from` to `to` that are at the place, added up.
fn weight(file: &[u8], start: usize, from: usize, to: usize, place: usize) -> usize
    requires { Within file.now start from to }
    ensures { (sum_to file.now start place from + result ≡ sum_to file.now start place to) × (result ≤ 268431360) }
{
    let mut sum: usize = 0;
    let first = place_from(file, start, from, to, place);
    for j in first..to {
        let a = file_arcs::arc(file, start + 8 * j);
        if a.place != place {
            return sum;
        }
        sum += a.weight;
    }
    sum
}

// a less b, as an integer.
fn difference(a: usize, b: usize) -> i32
    requires { (a < 2 ^ 31) × (b < 2 ^ 31) }
    ensures { result ≡ pos a -ℤ pos b }
{
    (a as i32) - (b as i32)
}

// The effect of a transition on a place.
pub fn effect(file: &[u8], h: Header, place: usize, transition: usize) -> i32
    requires { Sound file.now h × (transition < h.transitions) }
    ensures { result ≡ effect_on (net_from file.now h) place transition }
{
    let start = h.arcstart;
    let a = first_from(file, start, h.arcs, 2 * transition);
    let b = next_from(file, start, a, h.arcs, 2 * transition + 1);
    let c = next_from(file, start, b, h.arcs, 2 * transition + 2);
    let input = weight(file, start, a, b, place);
    let output = weight(file, start, b, c, place);
    difference(output, input)
}

// A part of a file.
#[derive(Clone, Copy, Debug, PartialEq, Eq)]
pub struct Part {
    pub start: usize,
    pub length: usize,
}

// Where the arcs of a transition stand in the file; 0 and 0 where there are none or the number is unknown.
pub fn run_part(file: &[u8], h: Header, transition: usize) -> Part
    requires { Sound file.now h }
    ensures { PartOf file.now h transition result }
{
    if h.transitions <= transition {
        return Part {
            start: 0,
            length: 0,
        };
    }
    let a = first_from(file, h.arcstart, h.arcs, 2 * transition);
    let e = next_from(file, h.arcstart, a, h.arcs, 2 * transition + 2);
    if e <= a {
        return Part {
            start: 0,
            length: 0,
        };
    }
    Part {
        start: h.arcstart + 8 * a,
        length: 8 * (e - a),
    }
}

// The bytes of the arcs of a transition: a part of the file.
pub fn run(file: &[u8], h: Header, transition: usize) -> &[u8]
    requires { Sound file.now h }
    ensures { result.now ≡ run_of file.now h transition }
{
    let r = run_part(file, h, transition);
    let a = r.start;
    let e = a + r.length;
    &file[a..e]
}

// Good arcs, gone through in pairs: all limits by one sum, the order by one product.
ghost use Rattle.std.specs.Prelude.{◌≡◌, ◌+◌, ◌*◌, ◌<◌, ◌≤◌, true, length};
ghost use Rattle.file_arcs.specs.Sweep.{Narrow, both_fit, marks_of, room_of, sweep_key};
ghost use Rattle.file_arcs.specs.Refusal.{arcs_refusal};

use crate::{DIRECTION, PLACE, WEIGHT, word};

// The highest bit of a field; with what is added to a direction (at most 1) and to a weight (at least 1).
const HIGHEST: usize = 32768;

const DIRECTION_ROOM: usize = DIRECTION * (HIGHEST - 2);

const WEIGHT_ROOM: usize = WEIGHT * (HIGHEST - 1);

// The highest bits of the three fields that have a limit, and of the weight.
const PAST_LIMIT: usize = HIGHEST + DIRECTION * HIGHEST + PLACE * HIGHEST;

const SOME_WEIGHT: usize = WEIGHT * HIGHEST;

// What is added to an arc's number: it raises the highest bit of a field at its limit or above, and of a weight above 0.
fn room(places: usize, transitions: usize) -> usize
    requires { (places ≤ 1024) × (transitions ≤ 1024) }
    ensures { result ≡ room_of places transitions }
{
    HIGHEST - transitions + DIRECTION_ROOM + PLACE * (HIGHEST - places) + WEIGHT_ROOM
}

// A field that is out of range shows in its highest bit.
fn marks(w: usize, room: usize) -> usize
    ensures { result ≡ marks_of room w }
{
    w.wrapping_add(room) | w
}

// Are both arcs in range?
fn fit(w: usize, v: usize, room: usize) -> bool
    ensures { result ≡ both_fit room w v }
{
    let a = marks(w, room);
    let b = marks(v, room);
    ((a | b) & PAST_LIMIT == 0) & (SOME_WEIGHT <= a & b)
}

// Orders arcs that are in range by transition, direction and place. The sum becomes one product.
fn sweep_key(x: usize) -> usize
    requires { Narrow x }
    ensures { (result ≡ sweep_key x) × (result < 9223372036854775808) }
{
    (x << 52) + (x << 35) + (x << 9)
}

// Is each of `count` arcs from `start` on in range, and not below the one before?
pub(crate) fn all_good(
    file: &[u8],
    places: usize,
    transitions: usize,
    start: usize,
    count: usize,
) -> bool
    requires count_in_bounds { start + 8 * count ≤ length file.now }
    requires places_bound { (places ≤ 1024) × (transitions ≤ 1024) }
    ensures { result ≡ true → arcs_refusal file.now places transitions start 0 count ≡ 0 }
{
    let room = room(places, transitions);
    let mut least: usize = 0;
    for k in 0..count / 2 {
        let at = start + 16 * k;
        let w = word(file, at);
        let v = word(file, at + 8);
        if !fit(w, v, room) {
            return false;
        }
        let first = sweep_key(w % WEIGHT);
        let second = sweep_key(v % WEIGHT);
        if (first < least) | (second < first) {
            return false;
        }
        least = second;
    }
    if count % 2 == 0 {
        return true;
    }
    let w = word(file, start + 8 * (count - 1));
    if !fit(w, w, room) {
        return false;
    }
    least <= sweep_key(w % WEIGHT)
}

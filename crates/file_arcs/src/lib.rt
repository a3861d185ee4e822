#![tactic(auto)]

// The arcs of a file: refusals 6 and 7.
mod sweep;

ghost use Rattle.std.specs.Prelude.{◌≡◌, ◌+◌, ◌*◌, ◌^◌, ◌<◌, ◌≤◌, length};
ghost use Rattle.refusals.specs.Numbers.{refusal_number};
ghost use Rattle.file_arcs.specs.Facts.{ArcSmall, ArcWord, arc_of, arc_unfit};
ghost use Rattle.file_arcs.specs.Layout.{arc_at};
ghost use Rattle.file_arcs.specs.Refusal.{arcs_refusal, key};

use crate::sweep::all_good;
use file_words::get32;
use net::Arc;
use refusals::Refusal;

// An arc's number: the transition, and from these units on the direction, the place and the weight.
pub const DIRECTION: usize = 65536;

pub const PLACE: usize = 4294967296;

pub const WEIGHT: usize = 281474976710656;

// The 8 bytes of an arc as one number.
pub fn word(file: &[u8], at: usize) -> usize
    requires { at + 8 ≤ length file.now }
    ensures { ArcWord file.now at result }
{
    get32(file, at) + PLACE * get32(file, at + 4)
}

// The arc in such a number.
pub fn arc_of(w: usize) -> Arc
    ensures { (result ≡ arc_of w) × ArcSmall result }
{
    Arc {
        transition: w % DIRECTION,
        direction: w / DIRECTION % 256,
        place: w / PLACE % 65536,
        weight: w / WEIGHT,
    }
}

// The arc whose 8 bytes start at `at`.
pub fn arc(file: &[u8], at: usize) -> Arc
    requires { at + 8 ≤ length file.now }
    ensures { (result ≡ arc_at file.now at) × ArcSmall result }
{
    arc_of(word(file, at))
}

// Is a field of the arc out of range? `middle` is its direction and its zero byte.
fn unfit(a: Arc, middle: usize, places: usize, transitions: usize) -> bool
    ensures { result ≡ arc_unfit places transitions a middle }
{
    (1 < middle) | (places <= a.place) | (transitions <= a.transition) | (a.weight == 0)
}

// Arcs are ordered by this number.
fn order(a: Arc) -> usize
    requires { ArcSmall a }
    ensures { (result ≡ key a) × (result < 2 ^ 40) }
{
    131072 * a.transition + 65536 * a.direction + a.place
}

// Checks `count` arcs from `start` on, one by one.
pub fn check_each(
    file: &[u8],
    places: usize,
    transitions: usize,
    start: usize,
    count: usize,
) -> Result<(), Refusal>
    requires { start + 8 * count ≤ length file.now }
    ensures { refusal_number result ≡ arcs_refusal file.now places transitions start 0 count }
{
    let mut least: usize = 0;
    for i in 0..count {
        let w = word(file, start + 8 * i);
        let a = arc_of(w);
        if unfit(a, w / DIRECTION % 65536, places, transitions) {
            return Err(Refusal::Arc);
        }
        let key = order(a);
        if key < least {
            return Err(Refusal::Order);
        }
        least = key;
    }
    Ok(())
}

// The same; good arcs are gone through in pairs, and one by one only where there is a bad one.
pub fn check(
    file: &[u8],
    places: usize,
    transitions: usize,
    start: usize,
    count: usize,
) -> Result<(), Refusal>
    requires count_in_bounds { start + 8 * count ≤ length file.now }
    requires places_bound { (places ≤ 1024) × (transitions ≤ 1024) }
    ensures { refusal_number result ≡ arcs_refusal file.now places transitions start 0 count }
{
    if all_good(file, places, transitions, start, count) {
        return Ok(());
    }
    check_each(file, places, transitions, start, count)
}

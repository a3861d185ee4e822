#![tactic(auto)]

// How often the inputs of a transition can be taken together from a marking, and what is left of it.
ghost use Rattle.std.specs.Prelude.{◌≡◌, ℕ, ◌*◌, ◌<◌, ◌≤◌, min, length, get_or};
ghost use Rattle.refusals.specs.Numbers.{refusal_number};
ghost use Rattle.net.specs.Net.{tokens};
ghost use Rattle.net.specs.Together.{together, remainder};
ghost use Rattle.file.specs.Layout.{net_from};
ghost use Rattle.file.specs.Facts.{Sound};
ghost use Rattle.arcs_column.specs.Gain.{Run};
ghost use Rattle.promise.specs.Calls.{written};
ghost use Rattle.promise.specs.Together.{standing, together_told, together_or};
ghost use Rattle.together.specs.Told.{taken_numbers, together_numbers, held_back};
ghost use Rattle.together.specs.Inputs.{drawn, OneWay, MostTimes, TakesTimes, Passed};

use arcs_groups::group;
use arcs_starts::{first_from, next_from};
use file_arcs::arc;
use file_header::Header;
use refusals::Refusal;

// The largest number of times; or any number. No Option: None would read as no times at all.
#[derive(Clone, Copy, Debug, PartialEq, Eq)]
pub enum Together {
    Times(u64),
    Unlimited,
}

// The fewest times that a place of the arcs from `from` to `to` allows, parallel arcs counting together: j goes from group to group.
fn fewest(file: &[u8], start: usize, from: usize, to: usize, marking: &[u64]) -> u64
    requires one_way { OneWay file.now start from to (length marking.now) }
    requires from_lt_to { from < to }
    ensures { MostTimes file.now start from to marking.now result }
{
    let mut least = u64::MAX;
    let mut j = from;
    while j < to {
        let a = arc(file, start + 8 * j);
        let p = a.place;
        let all = group(file, start, j, to);
        let here = marking[p] / (all.weight as u64);
        least = least.min(here);
        j = all.end;
    }
    least
}

// Takes the weights of the arcs from `from` to `to`, each k times, out of the marking.
fn take(file: &[u8], start: usize, from: usize, to: usize, k: u64, marking: &mut [u64])
    requires run { Run file.now start from to (length marking.old) }
    requires by_index { (p : ℕ) → k * drawn file.now start from to p ≤ get_or marking.old p 0 }
    ensures { TakesTimes file.now start from to k marking.old marking.new }
{
    for j in from..to {
        let a = arc(file, start + 8 * j);
        let p = a.place;
        let count = marking[p];
        marking[p] = count - k * (a.weight as u64);
    }
}

// Writes a list to one that is as long. By a loop, of which the compiler makes a call of memcpy: `copy_from_slice` calls memmove, which the archive does not ask of its users.
fn copy(from: &[u64], to: &mut [u64])
    requires { length to.old ≡ length from.now }
    ensures { to.new ≡ from.now }
{
    for p in 0..from.len() {
        to[p] = from[p];
    }
}

// How often the inputs of a transition can be taken together from the marking; what is left goes to `rest`. Both have an entry for each place.
fn largest(file: &[u8], h: Header, transition: usize, marking: &[u64], rest: &mut [u64]) -> Together
    requires { Passed file.now h transition marking.now rest.old }
    ensures result_value { taken_numbers result ≡ together_told (together (net_from file.now h) transition (standing marking.now)) }
    ensures rest_after { rest.new ≡ tokens (net_from file.now h) (remainder (net_from file.now h) transition (standing marking.now) (together (net_from file.now h) transition (standing marking.now))) }
{
    let start = h.arcstart;
    let from = first_from(file, start, h.arcs, 2 * transition);
    let to = next_from(file, start, from, h.arcs, 2 * transition + 1);
    copy(marking, rest);
    if to <= from {
        return Together::Unlimited;
    }
    let k = fewest(file, start, from, to, marking);
    take(file, start, from, to, k, rest);
    Together::Times(k)
}

// Checks the transition's number, the marking's entries, then the room for what is left: 12, 15 or 13.
fn check(h: Header, transition: usize, entries: usize, room: usize) -> Result<(), Refusal>
    ensures { refusal_number result ≡ held_back h transition entries room }
{
    if h.transitions <= transition {
        return Err(Refusal::Transition);
    }
    if entries != h.places {
        return Err(Refusal::Marking);
    }
    if room < h.places {
        return Err(Refusal::Buffer);
    }
    Ok(())
}

// How often, where nothing is refused. The first entries of `rest` get what is left of the marking, and the others are kept.
pub fn takings(
    file: &[u8],
    h: Header,
    transition: usize,
    marking: &[u64],
    rest: &mut [u64],
) -> Result<Together, Refusal>
    requires { Sound file.now h }
    ensures answer { together_numbers result ≡ together_or (held_back h transition (length marking.now) (length rest.old)) (together (net_from file.now h) transition (standing marking.now)) }
    ensures rest { rest.new ≡ written (held_back h transition (length marking.now) (length rest.old)) (tokens (net_from file.now h) (remainder (net_from file.now h) transition (standing marking.now) (together (net_from file.now h) transition (standing marking.now)))) rest.old }
{
    check(h, transition, marking.len(), rest.len())?;
    let places = h.places;
    Ok(largest(file, h, transition, marking, &mut rest[..places]))
}

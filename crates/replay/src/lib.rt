#![tactic(auto)]

// Replay of a list of transitions on the net of a file that was read.
mod capped;

ghost use Rattle.std.specs.Prelude.{◌≡◌, ℕ, ◌+◌, ◌*◌, ◌<◌, ◌≤◌, length, get_or};
ghost use Rattle.refusals.specs.Numbers.{refusal_number};
ghost use Rattle.net.specs.Net.{replay as replay_of, tokens};
ghost use Rattle.file_words.specs.Word.{le32};
ghost use Rattle.file.specs.Layout.{net_from};
ghost use Rattle.file.specs.Facts.{Sound};
ghost use Rattle.promise.specs.Calls.{written};
ghost use Rattle.promise.specs.Firing.{replay_told, replay_or};
ghost use Rattle.replay.specs.Told.{ended_numbers, outcome_numbers, held_back};
ghost use Rattle.replay_steps.specs.Steps.{held, Ready, Plain, Underway};
ghost use Rattle.replay.specs.Steps.{begun, Passed, Going, EndedFrom};

use crate::capped::run_capped;
use file_arcs::arc;
use file_header::Header;
use refusals::Refusal;
use replay_firing::{add_up, fire, missing};
use tables::{LARGE, MIDDLE, SMALL, entry};

// How a replay ends: all fired; or stuck, at an index of the list and a place, short of so many tokens, or full by so many above its cap.
#[derive(Clone, Copy, Debug, PartialEq, Eq)]
pub enum Outcome {
    Fired,
    Short(u32, u32, u32),
    Full(u32, u32, u32),
}

// A quick way through the first firings where none is done: how many are done then. It may do none, and leave the marking alone.
fn head_start(
    file: &[u8],
    h: Header,
    table: &[u16],
    list: &[u16],
    done: usize,
    marking: &mut [u64],
) -> usize
    requires ready { Ready file.now h table.now marking.old }
    requires going { Going file.now h list.now marking.old done marking.old done }
    ensures { Going file.now h list.now marking.old done marking.new result }
{
    if done != 0 {
        return done;
    }
    replay_fast::ahead(file, h, table, list, marking)
}

// Fires the listed transitions of a net without caps in turn, after those that are done, until one is not enabled.
fn run(
    file: &[u8],
    h: Header,
    table: &[u16],
    list: &[u16],
    done: usize,
    marking: &mut [u64],
) -> Outcome
    requires plain { Plain file.now h table.now marking.old }
    requires going { Going file.now h list.now marking.old done marking.old done }
    ensures { EndedFrom file.now h list.now marking.old done marking.new result }
{
    // the label is the way out of both loops, with the index and the place of the firing that is not enabled
    'firings: {
        for k in done..list.len() {
            let t = list[k] as usize;
            let from = entry(table, 2 * t);
            let middle = entry(table, 2 * t + 1);
            let mut last: usize = 65536;
            let mut need: u64 = 0;
            for j in from..middle {
                let a = arc(file, h.arcstart + 8 * j);
                let p = a.place;
                need = add_up(p, a.weight, last, need);
                last = p;
                let count = marking[p];
                if count < need {
                    let index = k as u32;
                    let place = p as u32;
                    let amount = missing(file, h, j, need, count);
                    break 'firings Outcome::Short(index, place, amount);
                }
            }
            fire(file, h, table, t, marking);
        }
        Outcome::Fired
    }
}

// The same for any net: by a quick way first, then by the quicker of the two.
fn run_either(
    file: &[u8],
    h: Header,
    table: &[u16],
    list: &[u16],
    done: usize,
    marking: &mut [u64],
) -> Outcome
    requires ready { Ready file.now h table.now marking.old }
    requires going { Going file.now h list.now marking.old done marking.old done }
    ensures { EndedFrom file.now h list.now marking.old done marking.new result }
{
    let k = head_start(file, h, table, list, done, marking);
    if file::has_caps(file, h) {
        return run_capped(file, h, table, list, k, marking);
    }
    run(file, h, table, list, k, marking)
}

// Writes the number that stands at every SIZE-th byte of the file from `start` on.
fn load_each<const SIZE: usize>(file: &[u8], start: usize, marking: &mut [u64])
    requires { (p : ℕ) → p < length marking.old → start + SIZE * p + 4 ≤ length file.now }
    ensures { (p : ℕ) → p < length marking.old → get_or marking.new p 0 ≡ le32 file.now (start + SIZE * p) }
{
    for (p, count) in marking.iter_mut().enumerate() {
        *count = file_words::get32(file, start + SIZE * p) as u64;
    }
}

// Writes the initial marking of each place: with caps, a cap stands after each.
fn load(file: &[u8], h: Header, marking: &mut [u64])
    requires sound { Sound file.now h }
    requires marking_len { length marking.old ≡ h.places }
    ensures { marking.new ≡ begun file.now h }
{
    if h.edition == file_header::CAPS {
        load_each::<8>(file, h.markstart, marking);
    } else {
        load_each::<4>(file, h.markstart, marking);
    }
}

// The initial marking, and the firings that a small net does at once from there: how many.
fn begin(file: &[u8], h: Header, list: &[u16], marking: &mut [u64]) -> usize
    requires { Passed file.now h list.now marking.old }
    ensures { Underway file.now h list.now (begun file.now h) marking.new result }
{
    load(file, h, marking);
    replay_fast::small(file, h, list, marking)
}

// Replays what is left of a list, with one entry of the marking for each place.
fn replay_by(
    file: &[u8],
    h: Header,
    list: &[u16],
    done: usize,
    table: &mut [u16],
    marking: &mut [u64],
) -> Outcome
    requires sound { Sound file.now h }
    requires marking_len { length marking.old ≡ h.places }
    requires going { Going file.now h list.now marking.old done marking.old done }
    requires transitions_in_bounds { 2 * h.transitions < length table.old }
    ensures { EndedFrom file.now h list.now marking.old done marking.new result }
{
    arcs_starts::starts(file, h.arcstart, h.arcs, h.transitions, table);
    run_either(file, h, table, list, done, marking)
}

// The same, with a table that is as large as the net needs it.
pub fn replay_rest(
    file: &[u8],
    h: Header,
    list: &[u16],
    done: usize,
    marking: &mut [u64],
) -> Outcome
    requires sound { Sound file.now h }
    requires marking_len { length marking.old ≡ h.places }
    requires going { Going file.now h list.now marking.old done marking.old done }
    ensures { EndedFrom file.now h list.now marking.old done marking.new result }
{
    if h.transitions <= SMALL {
        let mut table = [0u16; 2 * SMALL + 1];
        return replay_by(file, h, list, done, &mut table, marking);
    }
    if h.transitions <= MIDDLE {
        let mut table = [0u16; 2 * MIDDLE + 1];
        return replay_by(file, h, list, done, &mut table, marking);
    }
    let mut table = [0u16; 2 * LARGE + 1];
    replay_by(file, h, list, done, &mut table, marking)
}

// Replays a list that is not refused, with one entry of the marking for each place.
fn replay_all(file: &[u8], h: Header, list: &[u16], marking: &mut [u64]) -> Outcome
    requires { Passed file.now h list.now marking.old }
    ensures result_value { ended_numbers result ≡ replay_told (replay_of (net_from file.now h) list.now).answer }
    ensures marking_after { marking.new ≡ tokens (net_from file.now h) (replay_of (net_from file.now h) list.now).marking }
{
    let done = begin(file, h, list, marking);
    if list.len() <= done {
        return Outcome::Fired;
    }
    replay_rest(file, h, list, done, marking)
}

// Checks the list, then the room for the marking: 11, 12 or 13.
pub fn check(h: Header, list: &[u16], room: usize) -> Result<(), Refusal>
    requires { h.transitions ≤ 1024 }
    ensures { refusal_number result ≡ held_back h list.now room }
{
    inputs_lists::check(h.transitions, list)?;
    if room < h.places {
        return Err(Refusal::Buffer);
    }
    Ok(())
}

// Replays the list from the initial marking. The first entries of `marking` get the marking that it ends with, and the others are kept.
pub fn replay(file: &[u8], h: Header, list: &[u16], marking: &mut [u64]) -> Result<Outcome, Refusal>
    requires { Sound file.now h }
    ensures answer { outcome_numbers result ≡ replay_or (held_back h list.now (length marking.old)) (replay_of (net_from file.now h) list.now).answer }
    ensures marking { marking.new ≡ written (held_back h list.now (length marking.old)) (tokens (net_from file.now h) (replay_of (net_from file.now h) list.now).marking) marking.old }
{
    check(h, list, marking.len())?;
    let places = h.places;
    Ok(replay_all(file, h, list, &mut marking[..places]))
}

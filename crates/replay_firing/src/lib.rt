#![tactic(auto)]

// One firing of a marking: what its inputs take, the firing itself, and which place it leaves above its cap.
ghost use Rattle.std.specs.Prelude.{◌≡◌, ℕ, ◌+◌, ◌-◌, ◌^◌, ◌<◌, ◌≤◌, eqb, length, get_or};
ghost use Rattle.net.specs.Net.{fire as fire_of};
ghost use Rattle.file.specs.Layout.{net_from};
ghost use Rattle.arcs_column.specs.Gain.{sum_to, Run, Takes, Gives};
ghost use Rattle.replay_steps.specs.Steps.{held, Ready, Holds};
ghost use Rattle.arcs_starts.specs.Table.{choose};
ghost use Rattle.replay_firing.specs.Short.{need_at, Lacking};
ghost use Rattle.replay_firing.specs.Firing.{Firable, Left, unfired, excess_over, FullFound, Filled};

use arcs_groups::group;
use file_arcs::arc;
use file_header::Header;
use tables::entry;

// A place, and how many tokens it has above its cap.
#[derive(Clone, Copy, Debug, PartialEq, Eq)]
pub struct Excess {
    pub place: u32,
    pub tokens: u32,
}

// What the arcs so far take from the place p: one more, of this weight, after those that took `need` from the place `last`.
pub fn add_up(p: usize, weight: usize, last: usize, need: u64) -> u64
    requires { (weight < 65536) × (need ≤ 268435456) }
    ensures { result ≡ choose (eqb p last) (need + weight) weight }
{
    if p == last {
        return need + (weight as u64);
    }
    weight as u64
}

// How many tokens are missing on the place of input arc j, which holds `count`: the arcs up to j take `need`, and the parallel ones after it take more.
pub fn missing(file: &[u8], h: Header, j: usize, need: u64, count: u64) -> u32
    requires { Lacking file.now h j need count }
    ensures { result ≡ need_at file.now h j - count }
{
    let a = arc(file, h.arcstart + 8 * j);
    let all = group(file, h.arcstart, j, h.arcs);
    let whole = need + (all.weight as u64) - (a.weight as u64);
    (whole - count) as u32
}

// Takes the weights of the arcs from `from` to `to` out of the marking. Beside arcs_column `take` and `give`, which are over u32: one function over both widths would want a trait with their two sums, and is no plainer than four loops of five lines.
fn take(file: &[u8], start: usize, from: usize, to: usize, marking: &mut [u64])
    requires run { Run file.now start from to (length marking.old) }
    requires by_index { (p : ℕ) → sum_to file.now start p to ≤ get_or marking.old p 0 + sum_to file.now start p from }
    ensures { Takes file.now start from to marking.old marking.new }
{
    for j in from..to {
        let a = arc(file, start + 8 * j);
        let p = a.place;
        marking[p] -= a.weight as u64;
    }
}

// Adds the weights of the arcs from `from` to `to` to the marking.
pub fn give(file: &[u8], start: usize, from: usize, to: usize, marking: &mut [u64])
    requires run { Run file.now start from to (length marking.old) }
    requires by_index { (p : ℕ) → get_or marking.old p 0 + sum_to file.now start p to < 2 ^ 64 + sum_to file.now start p from }
    ensures { Gives file.now start from to marking.old marking.new }
{
    for j in from..to {
        let a = arc(file, start + 8 * j);
        let p = a.place;
        marking[p] += a.weight as u64;
    }
}

// Fires t, for which no place is short.
pub fn fire(file: &[u8], h: Header, table: &[u16], t: usize, marking: &mut [u64])
    requires ready { Ready file.now h table.now marking.old }
    requires firable { Firable file.now h t marking.old }
    ensures { Holds marking.old marking.new (fire_of (net_from file.now h) t (held marking.old)) }
{
    let from = entry(table, 2 * t);
    let middle = entry(table, 2 * t + 1);
    let to = entry(table, 2 * t + 2);
    take(file, h.arcstart, from, middle, marking);
    give(file, h.arcstart, middle, to, marking);
}

// Undoes a firing of t.
fn unfire(file: &[u8], h: Header, table: &[u16], t: usize, marking: &mut [u64])
    requires ready { Ready file.now h table.now marking.old }
    requires left { Left file.now h t marking.old }
    ensures { Holds marking.old marking.new (unfired (net_from file.now h) t (held marking.old)) }
{
    let from = entry(table, 2 * t);
    let middle = entry(table, 2 * t + 1);
    let to = entry(table, 2 * t + 2);
    take(file, h.arcstart, middle, to, marking);
    give(file, h.arcstart, from, middle, marking);
}

// The tokens above a cap, 0 for no cap.
fn above(cap: u64, count: u64) -> u64
    ensures { result ≡ excess_over cap count }
{
    if cap == 0 {
        return 0;
    }
    count.saturating_sub(cap)
}

// The lowest place above its cap, where t has fired: one of its outputs, which stand by rising place.
fn lowest_full(file: &[u8], h: Header, table: &[u16], t: usize, marking: &[u64]) -> Option<Excess>
    requires ready { Ready file.now h table.now marking.now }
    requires left { Left file.now h t marking.now }
    ensures { FullFound (net_from file.now h) t (held marking.now) result }
{
    let from = entry(table, 2 * t + 1);
    let to = entry(table, 2 * t + 2);
    for j in from..to {
        let a = arc(file, h.arcstart + 8 * j);
        let p = a.place;
        let cap = file::cap(file, h, p) as u64;
        let excess = above(cap, marking[p]);
        if excess != 0 {
            let place = p as u32;
            let tokens = excess as u32;
            return Some(Excess { place, tokens });
        }
    }
    None
}

// Fires t, for which no place is short, unless that leaves a place above its cap.
pub fn fire_capped(
    file: &[u8],
    h: Header,
    table: &[u16],
    t: usize,
    marking: &mut [u64],
) -> Option<Excess>
    requires ready { Ready file.now h table.now marking.old }
    requires firable { Firable file.now h t marking.old }
    ensures { Filled (net_from file.now h) t marking.old marking.new result }
{
    fire(file, h, table, t, marking);
    let full = lowest_full(file, h, table, t, marking)?;
    unfire(file, h, table, t, marking);
    Some(full)
}

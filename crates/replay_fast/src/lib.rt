#![tactic(auto)]

// A quick way through the firings of a list. Sums wrap meanwhile, so that a place that would be short shows in bit 63.
// For a long list two tables say of each arc which place it is at and what it adds to it; for a short one the arcs are read from the file.
ghost use Rattle.std.specs.Prelude.{◌≡◌, ◌-◌, ◌<◌, ◌≤◌, length, ◌==◌};
ghost use Rattle.net.specs.Net.{counted};
ghost use Rattle.std.specs.Prelude.{false};
ghost use Rattle.net.specs.Net.{Uncapped};
ghost use Rattle.file.specs.Layout.{net_from};
ghost use Rattle.file.specs.Facts.{Sound};
ghost use Rattle.replay_steps.specs.Steps.{Ready, Plain, Listed, Underway};
ghost use Rattle.replay_fast.specs.Moves.{change_of, Weighs, Signed, Readable, MovesOf, Movable, Shifted, Stopped, Moved, Roomy, repeats_to, Indexed};

use file_arcs::arc;
use file_header::Header;
use tables::{LARGE_ARCS, MIDDLE_ARCS, SMALL, entry};

// What an arc adds to its place, modulo 2^32.
fn change_of(direction: usize, weight: usize) -> u32
    requires { Weighs weight }
    ensures { result ≡ change_of direction weight }
{
    if direction == 0 {
        (4294967296 - weight) as u32
    } else {
        weight as u32
    }
}

// The same modulo 2^64: bit 31 is the sign. Written so, it is one instruction.
fn signed(change: u32) -> u64
    ensures { Signed change result }
{
    u64::from(change ^ 2147483648).wrapping_sub(2147483648)
}

// What an arc adds to its place, modulo 2^64, in one step.
fn added(direction: usize, weight: usize) -> u64
    requires { Weighs weight }
    ensures { Signed (change_of direction weight) result }
{
    let w = weight as u64;
    if direction == 0 {
        0u64.wrapping_sub(w)
    } else {
        w
    }
}

// Writes the place of each arc, and what it adds.
fn moves_of(file: &[u8], h: Header, places: &mut [u16], changes: &mut [u32])
    requires { Readable file.now h places.old changes.old }
    ensures { MovesOf file.now h places.new changes.new }
{
    let start = h.arcstart;
    for j in 0..h.arcs {
        let a = arc(file, start + 8 * j);
        places[j] = a.place as u16;
        changes[j] = change_of(a.direction, a.weight);
    }
}

// Changes each place by the arcs from `from` to `to`; `file` and `h` only say whose arcs. It stops after an arc that leaves an entry with bit 63, and answers which; else `to`.
fn shift(
    file: &[u8],
    h: Header,
    places: &[u16],
    changes: &[u32],
    from: usize,
    to: usize,
    marking: &mut [u64],
) -> usize
    requires movable { Movable file.now h from to marking.old }
    requires moves_of { MovesOf file.now h places.now changes.now }
    ensures { Stopped file.now h.arcstart from to marking.old marking.new result }
{
    // `done` holds the number that is answered, so that the compiled loop counts by it; a `return` in the loop costs one instruction more an arc
    let mut done = from;
    for j in from..to {
        let p = entry(places, j);
        let c = signed(changes[j]);
        let value = marking[p].wrapping_add(c);
        marking[p] = value;
        if 9223372036854775808 <= value {
            break;
        }
        done = j + 1;
    }
    done
}

// Changes each place by the arcs from `from` to `to`, with the place's entry in hand while they are at the same place. Bit 63 of the answer is 1 if that of an entry was after one of them.
fn shift_joined(
    file: &[u8],
    h: Header,
    places: &[u16],
    changes: &[u32],
    from: usize,
    to: usize,
    marking: &mut [u64],
) -> u64
    requires movable { Movable file.now h from to marking.old }
    requires moves_of { MovesOf file.now h places.now changes.now }
    ensures { Shifted file.now h.arcstart from to marking.old marking.new result }
{
    if to <= from {
        return 0;
    }
    let mut p = entry(places, from);
    let mut value = marking[p];
    let mut all: u64 = 0;
    for j in from..to {
        let q = entry(places, j);
        if q != p {
            marking[p] = value;
            p = q;
            value = marking[q];
        }
        let c = signed(changes[j]);
        value = value.wrapping_add(c);
        all |= value;
    }
    marking[p] = value;
    all
}

// Changes each place back by the same arcs.
fn back(
    file: &[u8],
    h: Header,
    places: &[u16],
    changes: &[u32],
    from: usize,
    to: usize,
    marking: &mut [u64],
)
    requires movable { Movable file.now h from to marking.old }
    requires moves_of { MovesOf file.now h places.now changes.now }
    ensures { Moved 1 0 file.now h.arcstart from to marking.old marking.new }
{
    for j in from..to {
        let p = entry(places, j);
        let c = signed(changes[j]);
        marking[p] = marking[p].wrapping_sub(c);
    }
}

// Fires the listed transitions in turn, until bit 63 tells that a place was short.
fn march(
    file: &[u8],
    h: Header,
    places: &[u16],
    changes: &[u32],
    table: &[u16],
    list: &[u16],
    marking: &mut [u64],
) -> usize
    requires plain { Plain file.now h table.now marking.old }
    requires listed { Listed file.now h list.now marking.old }
    requires moves_of { MovesOf file.now h places.now changes.now }
    ensures { Underway file.now h list.now marking.old marking.new result }
{
    for (k, t) in list.iter().enumerate() {
        let t = usize::from(*t);
        let from = entry(table, 2 * t);
        let to = entry(table, 2 * t + 2);
        let r = shift(file, h, places, changes, from, to, marking);
        if r < to {
            back(file, h, places, changes, from, r + 1, marking);
            return k;
        }
    }
    list.len()
}

// Bit 63 is 1 where a place that has a cap has more tokens. Both numbers are made, so that there is no branch on which places have one.
fn excess(cap: usize, count: u64) -> u64
    requires { cap < 4294967296 }
    ensures { result < 9223372036854775808 → count < 9223372036854775808 → 0 < cap → count ≤ cap }
{
    let room = (cap as u64).wrapping_sub(count);
    if cap == 0 { 0 } else { room }
}

// Changes each place by the arcs from `from` to `to`. Bit 63 of the answer is 1 if that of an entry was after one of them, or if a place was above its cap.
fn shift_capped(
    file: &[u8],
    h: Header,
    places: &[u16],
    changes: &[u32],
    from: usize,
    to: usize,
    marking: &mut [u64],
) -> u64
    requires movable { Movable file.now h from to marking.old }
    requires moves_of { MovesOf file.now h places.now changes.now }
    ensures shifted { Shifted file.now h.arcstart from to marking.old marking.new result }
    ensures roomy { result < 9223372036854775808 → Roomy file.now h from to marking.new }
{
    let mut all: u64 = 0;
    for j in from..to {
        let p = entry(places, j);
        let c = signed(changes[j]);
        let value = marking[p].wrapping_add(c);
        marking[p] = value;
        let over = excess(file::cap(file, h, p), value);
        all = all | value | over;
    }
    all
}

// Fires as `march` does, by whole firings: with the place's entry in hand, or, where the net may have caps, stopping at a place that would be full, too.
fn march_whole<const CAPPED: bool>(
    file: &[u8],
    h: Header,
    places: &[u16],
    changes: &[u32],
    table: &[u16],
    list: &[u16],
    marking: &mut [u64],
) -> usize
    requires ready { Ready file.now h table.now marking.old }
    requires uncapped { CAPPED ≡ false → Uncapped (net_from file.now h) }
    requires listed { Listed file.now h list.now marking.old }
    requires moves_of { MovesOf file.now h places.now changes.now }
    ensures { Underway file.now h list.now marking.old marking.new result }
{
    for (k, t) in list.iter().enumerate() {
        let t = usize::from(*t);
        let from = entry(table, 2 * t);
        let to = entry(table, 2 * t + 2);
        let signs = if CAPPED {
            shift_capped(file, h, places, changes, from, to, marking)
        } else {
            shift_joined(file, h, places, changes, from, to, marking)
        };
        if 9223372036854775808 <= signs {
            back(file, h, places, changes, from, to, marking);
            return k;
        }
    }
    list.len()
}

// How many of the first `count` entries are as the one before.
fn repeats(places: &[u16], count: usize) -> usize
    requires { count ≤ length places.now }
    ensures { (result ≡ repeats_to places.now (count - 1)) × (result ≤ count) }
{
    let mut n = 0;
    for j in 1..count {
        if places[j] == places[j - 1] {
            n += 1;
        }
    }
    n
}

// Fires as `march` does; with the entry in hand where most arcs are at the place of the one before, as each sum of `shift` would wait there for the store before it.
fn march_either(
    file: &[u8],
    h: Header,
    places: &[u16],
    changes: &[u32],
    table: &[u16],
    list: &[u16],
    marking: &mut [u64],
) -> usize
    requires plain { Plain file.now h table.now marking.old }
    requires listed { Listed file.now h list.now marking.old }
    requires moves_of { MovesOf file.now h places.now changes.now }
    ensures { Underway file.now h list.now marking.old marking.new result }
{
    let n = repeats(places, h.arcs);
    if h.arcs < 2 * n {
        return march_whole::<false>(file, h, places, changes, table, list, marking);
    }
    march(file, h, places, changes, table, list, marking)
}

// Fires as `ahead` does, by tables for N arcs. It is made a part of its caller.
#[inline(always)]
fn ahead_by<const N: usize>(
    file: &[u8],
    h: Header,
    table: &[u16],
    list: &[u16],
    marking: &mut [u64],
) -> usize
    requires ready { Ready file.now h table.now marking.old }
    requires listed { Listed file.now h list.now marking.old }
    requires room { (h.arcs ≤ N) × (N ≤ 4096) }
    ensures { Underway file.now h list.now marking.old marking.new result }
{
    let mut places = [0u16; N];
    let mut changes = [0u32; N];
    moves_of(file, h, &mut places, &mut changes);
    if file::has_caps(file, h) {
        return march_whole::<true>(file, h, &places, &changes, table, list, marking);
    }
    march_either(file, h, &places, &changes, table, list, marking)
}

// Fires the listed transitions in turn, and answers how many. It stops where one is not enabled; a short list it leaves alone.
pub fn ahead(file: &[u8], h: Header, table: &[u16], list: &[u16], marking: &mut [u64]) -> usize
    requires ready { Ready file.now h table.now marking.old }
    requires listed { Listed file.now h list.now marking.old }
    ensures { Underway file.now h list.now marking.old marking.new result }
{
    if list.len() < 64 {
        return 0;
    }
    if h.arcs <= MIDDLE_ARCS {
        return ahead_by::<MIDDLE_ARCS>(file, h, table, list, marking);
    }
    ahead_by::<LARGE_ARCS>(file, h, table, list, marking)
}

// Changes each place by the arcs from `from` to `to`, read from the file: the inputs, which stand first, then the outputs. Bit 63 of the answer is 1 if that of an entry was after an input.
fn shift_read(file: &[u8], h: Header, from: usize, to: usize, marking: &mut [u64]) -> u64
    requires { Movable file.now h from to marking.old }
    ensures { Shifted file.now h.arcstart from to marking.old marking.new result }
{
    let start = h.arcstart;
    let mut all: u64 = 0;
    let mut middle = to;
    for j in from..to {
        let a = arc(file, start + 8 * j);
        if a.direction != 0 {
            middle = j;
            break;
        }
        let p = a.place;
        let value = marking[p].wrapping_sub(a.weight as u64);
        marking[p] = value;
        all |= value;
    }
    for j in middle..to {
        let a = arc(file, start + 8 * j);
        let p = a.place;
        marking[p] = marking[p].wrapping_add(a.weight as u64);
    }
    all
}

// Changes each place back by the same arcs.
fn back_read(file: &[u8], h: Header, from: usize, to: usize, marking: &mut [u64])
    requires { Movable file.now h from to marking.old }
    ensures { Moved 1 0 file.now h.arcstart from to marking.old marking.new }
{
    let start = h.arcstart;
    for j in from..to {
        let a = arc(file, start + 8 * j);
        let p = a.place;
        let c = added(a.direction, a.weight);
        marking[p] = marking[p].wrapping_sub(c);
    }
}

// Fires as `march` does, by a table with an entry a transition and the arcs in the file.
fn march_read(file: &[u8], h: Header, table: &[u16], list: &[u16], marking: &mut [u64]) -> usize
    requires indexed { Indexed file.now h table.now marking.old }
    requires listed { Listed file.now h list.now marking.old }
    ensures { Underway file.now h list.now marking.old marking.new result }
{
    for (k, t) in list.iter().enumerate() {
        let t = usize::from(*t);
        let from = entry(table, t);
        let to = entry(table, t + 1);
        if 9223372036854775808 <= shift_read(file, h, from, to, marking) {
            back_read(file, h, from, to, marking);
            return k;
        }
    }
    list.len()
}

// Fires a short list on a small net without caps, as `ahead` does a long one; of any other list or net it does none.
pub fn small(file: &[u8], h: Header, list: &[u16], marking: &mut [u64]) -> usize
    requires sound { Sound file.now h }
    requires marking_len { length marking.old ≡ h.places }
    requires listed { Listed file.now h list.now marking.old }
    ensures { Underway file.now h list.now marking.old marking.new result }
{
    if (h.edition == file_header::CAPS) | (SMALL < h.transitions) | (64 <= list.len()) {
        return 0;
    }
    let mut table = [0u16; SMALL + 1];
    arcs_starts::firsts(file, h.arcstart, h.arcs, h.transitions, &mut table);
    march_read(file, h, &table, list, marking)
}

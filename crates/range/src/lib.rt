#![tactic(auto)]

// The marking that a list of firings needs, and from which markings of a range the list fires.
ghost use Rattle.std.specs.Prelude.{◌≡◌, ℕ, ◌+◌, ◌-◌, ◌*◌, ◌^◌, ◌<◌, ◌≤◌, length, get_or};
ghost use Rattle.std.specs.Prelude.{Ok};
ghost use Rattle.refusals.specs.Numbers.{refusal_number};
ghost use Rattle.net.specs.Net.{tokens};
ghost use Rattle.net.specs.Range.{need as need_of, covers, extent as extent_of};
ghost use Rattle.file_header.specs.Facts.{Placed};
ghost use Rattle.file.specs.Layout.{net_from};
ghost use Rattle.file.specs.Facts.{Sound};
ghost use Rattle.arcs_column.specs.Gain.{Run};
ghost use Rattle.promise.specs.Calls.{written};
ghost use Rattle.promise.specs.Together.{standing};
ghost use Rattle.promise.specs.Range.{range_told, range_or};
ghost use Rattle.replay_steps.specs.Steps.{held, Ready, Holds};
ghost use Rattle.range.specs.Told.{range_numbers, held_back};
ghost use Rattle.range.specs.Need.{Credits, wanted, Known, extent_for, Passed};

use file_arcs::arc;
use file_header::Header;
use refusals::Refusal;
use replay_firing::give;
use tables::{LARGE, MIDDLE, SMALL, entry};

// Two entries a transition, and one for the end.
const SMALL_TABLE: usize = 2 * SMALL + 1;

const MIDDLE_TABLE: usize = 2 * MIDDLE + 1;

const LARGE_TABLE: usize = 2 * LARGE + 1;

// The list fires from every marking in the range; from some of them, but not from all; or from none.
#[derive(Clone, Copy, Debug, PartialEq, Eq)]
pub enum Range {
    Every,
    Partly,
    Never,
}

// Takes the weights of the arcs from `from` to `to` off the need, each as far as there is any.
fn credit(file: &[u8], start: usize, from: usize, to: usize, need: &mut [u64])
    requires { Run file.now start from to (length need.old) }
    ensures { Credits file.now start from to need.old need.new }
{
    for j in from..to {
        let a = arc(file, start + 8 * j);
        let p = a.place;
        need[p] = need[p].saturating_sub(a.weight as u64);
    }
}

// From the need after a firing of t to the need before it: what t gives is not needed, what it takes is.
fn step_back(file: &[u8], h: Header, table: &[u16], t: usize, need: &mut [u64])
    requires ready { Ready file.now h table.now need.old }
    requires t_lt_transitions { t < h.transitions }
    requires by_index { (p : ℕ) → get_or need.old p 0 < 2 ^ 62 }
    ensures { Holds need.old need.new (wanted (net_from file.now h) t (held need.old)) }
{
    let from = entry(table, 2 * t);
    let middle = entry(table, 2 * t + 1);
    let to = entry(table, 2 * t + 2);
    credit(file, h.arcstart, middle, to, need);
    give(file, h.arcstart, from, middle, need);
}

// Goes back over the list from its last firing; after that nothing is needed.
fn back(file: &[u8], h: Header, table: &[u16], list: &[u16], need: &mut [u64])
    requires ready { Ready file.now h table.now need.old }
    requires known { Known h list.now }
    requires by_index { (p : ℕ) → get_or need.old p 0 ≡ 0 }
    ensures { Holds need.old need.new (need_of (net_from file.now h) list.now) }
{
    for k in (0..list.len()).rev() {
        step_back(file, h, table, usize::from(list[k]), need);
    }
}

// Has each place's initial marking what is needed there?
fn in_marking(file: &[u8], h: Header, need: &[u64]) -> bool
    requires { Placed (length file.now) h × (length need.now ≡ h.places) }
    ensures { result ≡ covers (net_from file.now h) (net_from file.now h).marking (held need.now) }
{
    for (p, needed) in need.iter().enumerate() {
        if (file::marking(file, h, p) as u64) < *needed {
            return false;
        }
    }
    true
}

// Has each entry of the upper list what is needed there?
fn in_upper(file: &[u8], h: Header, upper: &[u32], need: &[u64]) -> bool
    requires { (length upper.now ≡ h.places) × (length need.now ≡ h.places) }
    ensures { result ≡ covers (net_from file.now h) (standing upper.now) (held need.now) }
{
    for (p, needed) in need.iter().enumerate() {
        if u64::from(upper[p]) < *needed {
            return false;
        }
    }
    true
}

// Is no entry of the upper list below the place's initial marking?
fn from_marking(file: &[u8], h: Header, upper: &[u32]) -> bool
    requires { Placed (length file.now) h × (length upper.now ≡ h.places) }
    ensures { result ≡ covers (net_from file.now h) (standing upper.now) (net_from file.now h).marking }
{
    for (p, most) in upper.iter().enumerate() {
        if (*most as usize) < file::marking(file, h, p) {
            return false;
        }
    }
    true
}

// Which markings of the range have what is needed: all where the least has, none where the largest has not.
fn judge(file: &[u8], h: Header, upper: &[u32], need: &[u64]) -> Range
    requires { Placed (length file.now) h × (length upper.now ≡ h.places) × (length need.now ≡ h.places) }
    ensures { range_numbers (Ok result) ≡ range_told (extent_for (net_from file.now h) (standing upper.now) (held need.now)) }
{
    if in_marking(file, h, need) {
        return Range::Every;
    }
    if in_upper(file, h, upper, need) {
        return Range::Partly;
    }
    Range::Never
}

// The answer and the need where nothing is refused, by a table that is lent: a function of its own, so that the loop over the firings has registers enough.
fn extent_in(
    file: &[u8],
    h: Header,
    list: &[u16],
    upper: &[u32],
    table: &mut [u16],
    need: &mut [u64],
) -> Range
    requires passed { Passed file.now h list.now upper.now need.old }
    requires transitions_in_bounds { 2 * h.transitions < length table.old }
    ensures result_value { range_numbers (Ok result) ≡ range_told (extent_of (net_from file.now h) (standing upper.now) list.now) }
    ensures need_after { need.new ≡ tokens (net_from file.now h) (need_of (net_from file.now h) list.now) }
{
    arcs_starts::starts(file, h.arcstart, h.arcs, h.transitions, table);
    need.fill(0);
    back(file, h, table, list, need);
    judge(file, h, upper, need)
}

// The same, by a table of N numbers. It is made a part of its caller.
#[inline(always)]
fn extent_by<const N: usize>(
    file: &[u8],
    h: Header,
    list: &[u16],
    upper: &[u32],
    need: &mut [u64],
) -> Range
    requires passed { Passed file.now h list.now upper.now need.old }
    requires transitions_in_bounds { (2 * h.transitions < N) × (N ≤ 2049) }
    ensures result_value { range_numbers (Ok result) ≡ range_told (extent_of (net_from file.now h) (standing upper.now) list.now) }
    ensures need_after { need.new ≡ tokens (net_from file.now h) (need_of (net_from file.now h) list.now) }
{
    let mut table = [0u16; N];
    extent_in(file, h, list, upper, &mut table, need)
}

// The same, with a table that is as large as the net needs it.
fn extent_all(file: &[u8], h: Header, list: &[u16], upper: &[u32], need: &mut [u64]) -> Range
    requires { Passed file.now h list.now upper.now need.old }
    ensures result_value { range_numbers (Ok result) ≡ range_told (extent_of (net_from file.now h) (standing upper.now) list.now) }
    ensures need_after { need.new ≡ tokens (net_from file.now h) (need_of (net_from file.now h) list.now) }
{
    if h.transitions <= SMALL {
        return extent_by::<SMALL_TABLE>(file, h, list, upper, need);
    }
    if h.transitions <= MIDDLE {
        return extent_by::<MIDDLE_TABLE>(file, h, list, upper, need);
    }
    extent_by::<LARGE_TABLE>(file, h, list, upper, need)
}

// Checks the plan's caps, the list, the upper list, then the room for the need.
fn check(file: &[u8], h: Header, list: &[u16], upper: &[u32], room: usize) -> Result<(), Refusal>
    requires { Placed (length file.now) h }
    ensures { refusal_number result ≡ held_back file.now h list.now upper.now room }
{
    if file::has_caps(file, h) {
        return Err(Refusal::Capped);
    }
    inputs_lists::check(h.transitions, list)?;
    if upper.len() != h.places {
        return Err(Refusal::Upper);
    }
    if !from_marking(file, h, upper) {
        return Err(Refusal::Upper);
    }
    if room < h.places {
        return Err(Refusal::Buffer);
    }
    Ok(())
}

// From which markings between the initial one and the upper list the list fires. The first entries of `need` get what it needs, and the others are kept.
pub fn extent(
    file: &[u8],
    h: Header,
    list: &[u16],
    upper: &[u32],
    need: &mut [u64],
) -> Result<Range, Refusal>
    requires { Sound file.now h }
    ensures answer { range_numbers result ≡ range_or (held_back file.now h list.now upper.now (length need.old)) (extent_of (net_from file.now h) (standing upper.now) list.now) }
    ensures need { need.new ≡ written (held_back file.now h list.now upper.now (length need.old)) (tokens (net_from file.now h) (need_of (net_from file.now h) list.now)) need.old }
{
    check(file, h, list, upper, need.len())?;
    let places = h.places;
    Ok(extent_all(file, h, list, upper, &mut need[..places]))
}

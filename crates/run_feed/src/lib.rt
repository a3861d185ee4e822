#![tactic(auto)]

// Back over a recorded run: which firings fed the places of the criterion (document 02, A1; source document 002, algorithm 2).
// A transition that raises a place of W is drawn in, and waits for a firing of it: `first` gets one more than the arc with which its arcs start. When one is met it is chosen, and the entry is 0 again. So a firing is looked at once, by one entry, and most often nothing is to be done.
ghost use Rattle.std.specs.Prelude.{◌≡◌, true, ℕ, ◌+◌, ◌*◌, ◌-◌, ◌<◌, ◌≤◌, eqb, length, get_or};
ghost use Rattle.net.specs.Numbers.{among};
ghost use Rattle.net.specs.Net.{takes_from};
ghost use Rattle.file.specs.Facts.{Sound};
ghost use Rattle.file.specs.Layout.{net_from};
ghost use Rattle.arcs_starts.specs.Table.{choose, Split};
ghost use Rattle.cut_rows.specs.Rows.{Rows};
ghost use Rattle.run_feed.specs.Back.{Known, RaisersAdded, Entered, PassedBy, past, Met, Back};

use file_arcs::arc;
use file_header::Header;
use tables::entry;

// The entry of a transition that is drawn in, whose arcs start before `from`: where a firing of it was chosen it waits no more.
fn due(later: usize, from: usize) -> usize
    ensures { result ≡ choose (eqb later 0) from 0 }
{
    if later == 0 { from } else { 0 }
}

// Draws in the transitions that raise the place p.
fn add_raisers(
    file: &[u8],
    h: Header,
    head: &[u32],
    next: &[u32],
    last: &[u16],
    p: usize,
    first: &mut [u16],
)
    requires { Sound file.now h × Rows file.now h head.now next.now × (p < h.places) × (h.transitions ≤ length last.now) × (h.transitions ≤ length first.old) }
    ensures { RaisersAdded file.now h p last.now first.old first.new }
{
    let mut e = head[2 * p + 1] as usize;
    while e != 0 {
        let j = e % 65536 - 1;
        let a = arc(file, h.arcstart + 8 * j);
        let t = a.transition;
        let from = due(entry(last, t), e / 65536);
        first[t] = from as u16;
        e = next[j] as usize;
    }
}

// The place p enters W, and what raises it is drawn in from now on.
fn enter(
    file: &[u8],
    h: Header,
    head: &[u32],
    next: &[u32],
    last: &[u16],
    p: usize,
    places: &mut [u64; 16],
    first: &mut [u16],
)
    requires { Sound file.now h × Rows file.now h head.now next.now × (p < h.places) × (length places.old ≡ 16) × (h.transitions ≤ length last.now) × (h.transitions ≤ length first.old) }
    ensures { Entered file.now h (λ k. eqb k p) last.now places.old first.old places.new first.new }
{
    if sets::contains(places, p) {
        return;
    }
    sets::insert(places, p);
    add_raisers(file, h, head, next, last, p, first);
}

// The input places of the transition t, whose arcs start with arc `from`, enter W.
fn enter_inputs(
    file: &[u8],
    h: Header,
    head: &[u32],
    next: &[u32],
    last: &[u16],
    t: usize,
    from: usize,
    places: &mut [u64; 16],
    first: &mut [u16],
)
    requires sound { Sound file.now h × Rows file.now h head.now next.now × (length places.old ≡ 16) × (h.transitions ≤ length last.now) × (h.transitions ≤ length first.old) }
    requires t_lt_transitions { (t < h.transitions) × Split file.now h.arcstart h.arcs (2 * t) from }
    ensures { Entered file.now h (takes_from (net_from file.now h) t) last.now places.old first.old places.new first.new }
{
    let start = h.arcstart;
    for j in from..h.arcs {
        let a = arc(file, start + 8 * j);
        if a.transition + a.direction * 65536 != t {
            return;
        }
        enter(file, h, head, next, last, a.place, places, first);
    }
}

// The places of the criterion enter W.
pub fn enter_criterion(
    file: &[u8],
    h: Header,
    head: &[u32],
    next: &[u32],
    last: &[u16],
    criterion: &[u16],
    places: &mut [u64; 16],
    first: &mut [u16],
)
    requires sound { Sound file.now h × Rows file.now h head.now next.now × (length places.old ≡ 16) × (h.transitions ≤ length last.now) × (h.transitions ≤ length first.old) }
    requires known { Known h criterion.now }
    ensures { Entered file.now h (λ k. among k criterion.now) last.now places.old first.old places.new first.new }
{
    for q in criterion {
        enter(file, h, head, next, last, usize::from(*q), places, first);
    }
}

// The entry of the transition of firing i: 0 where it does not wait.
fn waiting(list: &[u16], first: &[u16], i: usize) -> usize
    requires { (i < length list.now) × ((j : ℕ) → j < length list.now → get_or list.now j 0 < length first.now) }
    ensures { (result ≡ get_or first.now (get_or list.now i 0) 0) × (result < 65536) }
{
    entry(first, usize::from(list[i]))
}

// Does none of the four firings from i on wait?
fn four_pass(list: &[u16], first: &[u16], i: usize) -> bool
    requires { (i + 4 ≤ length list.now) × ((j : ℕ) → j < length list.now → get_or list.now j 0 < length first.now) }
    ensures { result ≡ true → PassedBy list.now first.now i (i + 4) }
{
    let a = waiting(list, first, i);
    let b = waiting(list, first, i + 1);
    let c = waiting(list, first, i + 2);
    let d = waiting(list, first, i + 3);
    a + b + c + d == 0
}

// Going back from firing k, four at a time: where it comes to, with none that waits on the way.
fn pass(list: &[u16], first: &[u16], k: usize) -> usize
    requires { (k ≤ length list.now) × ((i : ℕ) → i < length list.now → get_or list.now i 0 < length first.now) }
    ensures { (result ≤ k) × PassedBy list.now first.now result k }
{
    let mut i = k;
    // Not over a range: four firings a turn while 16 are left; the number of turns would have to be worked out first.
    while 16 <= i {
        if !four_pass(list, first, i - 4) {
            return i;
        }
        i -= 4;
    }
    i
}

// Going back from firing k, the first one met whose transition waits.
fn met(list: &[u16], first: &[u16], k: usize) -> Option<usize>
    requires { (k ≤ length list.now) × ((i : ℕ) → i < length list.now → get_or list.now i 0 < length first.now) }
    ensures { Met list.now first.now k (past result) }
{
    for i in (0..pass(list, first, k)).rev() {
        if waiting(list, first, i) != 0 {
            return Some(i);
        }
    }
    None
}

// The first chosen firing that is met is the last one.
fn once(end: usize, k: usize) -> usize
    ensures { result ≡ choose (eqb end 0) k end }
{
    if end == 0 { k } else { end }
}

// Chooses firing k, whose transition waits.
fn take_up(
    file: &[u8],
    h: Header,
    head: &[u32],
    next: &[u32],
    criterion: &[u16],
    list: &[u16],
    k: usize,
    end: usize,
    places: &mut [u64; 16],
    first: &mut [u16],
    chosen: &mut [u64; 16],
    last: &mut [u16],
) -> usize
    requires sound { Sound file.now h × Rows file.now h head.now next.now × Known h criterion.now }
    requires waiting { (length list.now ≤ 65535) × (get_or list.now k 0 < h.transitions) × (0 < get_or first.old (get_or list.now k 0) 0) }
    requires back { Back file.now h criterion.now list.now (k + 1) end places.old first.old chosen.old last.old }
    ensures { Back file.now h criterion.now list.now k (result) places.new first.new chosen.new last.new }
{
    let t = usize::from(list[k]);
    let from = entry(first, t);
    sets::insert(chosen, t);
    last[t] = (k + 1) as u16;
    first[t] = 0;
    enter_inputs(file, h, head, next, last, t, from - 1, places, first);
    once(end, k + 1)
}

// Goes back from the last firing: W, the chosen transitions, their last chosen firings, and one more than the last chosen firing of all.
pub fn back(
    file: &[u8],
    h: Header,
    head: &[u32],
    next: &[u32],
    criterion: &[u16],
    list: &[u16],
    places: &mut [u64; 16],
    first: &mut [u16],
    chosen: &mut [u64; 16],
    last: &mut [u16],
) -> usize
    requires sound { Sound file.now h × Rows file.now h head.now next.now × Known h criterion.now }
    requires list_len_bound { (length list.now ≤ 65535) × ((i : ℕ) → i < length list.now → get_or list.now i 0 < h.transitions) }
    requires back { Back file.now h criterion.now list.now (length list.now) 0 places.old first.old chosen.old last.old }
    ensures { Back file.now h criterion.now list.now 0 (result) places.new first.new chosen.new last.new }
{
    let mut end: usize = 0;
    let mut reached = met(list, first, list.len());
    while let Some(k) = reached {
        end = take_up(
            file, h, head, next, criterion, list, k, end, places, first, chosen, last,
        );
        reached = met(list, first, k);
    }
    end
}

#![tactic(auto)]

// The checker's rules 4, 7 and 9: a kept transition's arcs, its input places, and its capped output places.
// A number past all stands for none: the clauses name it so, by `breaker` of the checker's rules.
ghost use Rattle.std.specs.Prelude.{◌≡◌, true, not, ◌&&◌, ℕ, ◌+◌, ◌*◌, ◌-◌, ◌<◌, ◌≤◌, length, get_or, eqb};
ghost use Rattle.net.specs.Net.{capped};
ghost use Rattle.net.specs.Checker.{breaks, breaker, rule4, rule7, rule9, same_arcs};
ghost use Rattle.file_arcs.specs.Layout.{arc_at, arcs_from};
ghost use Rattle.file.specs.Layout.{net_from, slice_from};
ghost use Rattle.file_header.specs.Facts.{Placed};
ghost use Rattle.rules_tables.specs.Matched.{Starts, Matched};
ghost use Rattle.rules_arcs.specs.Links.{Run, Unkept, Walk, Against, Step, renumbered, arcs_left, kept};

use file_arcs::{DIRECTION, PLACE, WEIGHT, word};
use file_header::Header;
use tables::entry;

// Has an arc from `from` to `to` a place that is not kept?
fn unkept(plan: &[u8], start: usize, from: usize, to: usize, ownp: &[u16]) -> bool
    requires { Run plan.now start from to (length ownp.now) }
    ensures { Unkept plan.now start from to (λ p. true) ownp.now result }
{
    for j in from..to {
        let a = file_arcs::arc(plan, start + 8 * j);
        if entry(ownp, a.place) == 0 {
            return true;
        }
    }
    false
}

// Is the transition t kept, and has it an input place that is not?
fn lacks_input(
    plan: &[u8],
    hp: Header,
    table: &[u16],
    slice: &[u8],
    hs: Header,
    ownp: &[u16],
    ownt: &[u16],
    t: usize,
) -> bool
    requires cases { Matched plan.now hp table.now slice.now hs ownp.now ownt.now }
    requires t_lt_transitions { t < hp.transitions }
    ensures { result ≡ breaks (rule7 (net_from plan.now hp) (slice_from slice.now hs)) t }
{
    if entry(ownt, t) == 0 {
        return false;
    }
    let from = entry(table, 2 * t);
    let to = entry(table, 2 * t + 1);
    unkept(plan, hp.arcstart, from, to, ownp)
}

// Rule 7: the lowest kept transition with an input place that is not kept; the number of transitions where none has one.
pub fn input_missing(
    plan: &[u8],
    hp: Header,
    table: &[u16],
    slice: &[u8],
    hs: Header,
    ownp: &[u16],
    ownt: &[u16],
) -> usize
    requires { Matched plan.now hp table.now slice.now hs ownp.now ownt.now }
    ensures { result ≡ breaker (rule7 (net_from plan.now hp) (slice_from slice.now hs)) }
{
    for t in 0..hp.transitions {
        if lacks_input(plan, hp, table, slice, hs, ownp, ownt, t) {
            return t;
        }
    }
    hp.transitions
}

// Is the place left out, and has it a cap?
fn capped_left(plan: &[u8], hp: Header, ownp: &[u16], place: usize) -> bool
    requires placed { Placed (length plan.now) hp }
    requires place_lt_places { place < hp.places }
    requires place_in_bounds { place < length ownp.now }
    ensures { result ≡ (eqb (get_or ownp.now place 0) 0 && capped (net_from plan.now hp) place) }
{
    if entry(ownp, place) != 0 {
        return false;
    }
    file::cap(plan, hp, place) != 0
}

// Has an arc from `from` to `to` a capped place that is not kept?
fn capped_unkept(plan: &[u8], hp: Header, from: usize, to: usize, ownp: &[u16]) -> bool
    requires placed { Placed (length plan.now) hp }
    requires run { Run plan.now hp.arcstart from to hp.places }
    requires places_in_bounds { hp.places ≤ length ownp.now }
    ensures { Unkept plan.now hp.arcstart from to (capped (net_from plan.now hp)) ownp.now result }
{
    let start = hp.arcstart;
    for j in from..to {
        let a = file_arcs::arc(plan, start + 8 * j);
        if capped_left(plan, hp, ownp, a.place) {
            return true;
        }
    }
    false
}

// Is the transition t kept, and has it a capped output place that is not?
fn lacks_output(
    plan: &[u8],
    hp: Header,
    table: &[u16],
    slice: &[u8],
    hs: Header,
    ownp: &[u16],
    ownt: &[u16],
    t: usize,
) -> bool
    requires cases { Matched plan.now hp table.now slice.now hs ownp.now ownt.now }
    requires t_lt_transitions { t < hp.transitions }
    ensures { result ≡ breaks (rule9 (net_from plan.now hp) (slice_from slice.now hs)) t }
{
    if entry(ownt, t) == 0 {
        return false;
    }
    let from = entry(table, 2 * t + 1);
    let upto = entry(table, 2 * t + 2);
    capped_unkept(plan, hp, from, upto, ownp)
}

// Rule 9: the lowest kept transition with a capped output place that is not kept; the number of transitions where none has one.
pub fn output_missing(
    plan: &[u8],
    hp: Header,
    table: &[u16],
    slice: &[u8],
    hs: Header,
    ownp: &[u16],
    ownt: &[u16],
) -> usize
    requires { Matched plan.now hp table.now slice.now hs ownp.now ownt.now }
    ensures { result ≡ breaker (rule9 (net_from plan.now hp) (slice_from slice.now hs)) }
{
    for t in 0..hp.transitions {
        if lacks_output(plan, hp, table, slice, hs, ownp, ownt, t) {
            return t;
        }
    }
    hp.transitions
}

// Is the slice's word v the plan's word w with these own numbers? One comparison: all eight bytes at once.
fn same(v: usize, w: usize, transition: usize, place: usize) -> bool
    requires { (transition < 65536) × (place < 65536) }
    ensures { result ≡ eqb v (renumbered w transition place) }
{
    let due = transition + w / DIRECTION % 65536 * DIRECTION + PLACE * place + w / WEIGHT * WEIGHT;
    v == due
}

// The plan's arc at `at` against the slice's arcs from k to `upto`: the slice's next arc; `upto` + 1 where they differ.
fn step(
    plan: &[u8],
    at: usize,
    slice: &[u8],
    hs: Header,
    k: usize,
    upto: usize,
    ownp: &[u16],
    own: usize,
) -> usize
    requires walk { Walk plan.now at slice.now hs ownp.now own }
    requires against { Against slice.now hs k upto ownp.now }
    ensures { Step (arc_at plan.now at) slice.now hs k upto result }
{
    let w = word(plan, at);
    let place = entry(ownp, w / PLACE % 65536);
    if place == 0 {
        return k;
    }
    if upto <= k {
        return upto + 1;
    }
    let v = word(slice, hs.arcstart + 8 * k);
    if same(v, w, own, place - 1) {
        return k + 1;
    }
    upto + 1
}

// Do the plan's arcs from `from` to `to`, renumbered, differ from the slice's arcs from `first` to `upto`?
fn other_run(
    plan: &[u8],
    start: usize,
    from: usize,
    to: usize,
    slice: &[u8],
    hs: Header,
    first: usize,
    upto: usize,
    ownp: &[u16],
    own: usize,
) -> bool
    requires run { Run plan.now start from to (length ownp.now) }
    requires by_index { (i : ℕ) → from ≤ i → i < to → Walk plan.now (start + 8 * i) slice.now hs ownp.now own }
    requires against { Against slice.now hs first upto ownp.now }
    ensures { result ≡ not (same_arcs (arcs_left slice.now hs first upto) (kept slice.now hs (arcs_from plan.now (start + 8 * from) (to - from)))) }
{
    let mut k = first;
    for j in from..to {
        let next = step(plan, start + 8 * j, slice, hs, k, upto, ownp, own);
        if upto < next {
            return true;
        }
        k = next;
    }
    k != upto
}

// Is the transition t kept, with other arcs than the plan's?
fn differs(
    plan: &[u8],
    hp: Header,
    table: &[u16],
    slice: &[u8],
    hs: Header,
    runs: &[u16],
    ownp: &[u16],
    ownt: &[u16],
    t: usize,
) -> bool
    requires cases { Matched plan.now hp table.now slice.now hs ownp.now ownt.now }
    requires starts { Starts slice.now hs runs.now }
    requires t_lt_transitions { t < hp.transitions }
    ensures { result ≡ breaks (rule4 (net_from plan.now hp) (slice_from slice.now hs)) t }
{
    let own = entry(ownt, t);
    if own == 0 {
        return false;
    }
    let from = entry(table, 2 * t);
    let to = entry(table, 2 * t + 2);
    let first = entry(runs, 2 * own - 2);
    let upto = entry(runs, 2 * own);
    other_run(
        plan,
        hp.arcstart,
        from,
        to,
        slice,
        hs,
        first,
        upto,
        ownp,
        own - 1,
    )
}

// Rule 4: the lowest kept transition whose arcs are not its plan arcs to kept places, renumbered; the number of transitions where none is.
// `runs` is the slice's table of starts.
pub fn other_arcs(
    plan: &[u8],
    hp: Header,
    table: &[u16],
    slice: &[u8],
    hs: Header,
    runs: &[u16],
    ownp: &[u16],
    ownt: &[u16],
) -> usize
    requires cases { Matched plan.now hp table.now slice.now hs ownp.now ownt.now }
    requires starts { Starts slice.now hs runs.now }
    ensures { result ≡ breaker (rule4 (net_from plan.now hp) (slice_from slice.now hs)) }
{
    for t in 0..hp.transitions {
        if differs(plan, hp, table, slice, hs, runs, ownp, ownt, t) {
            return t;
        }
    }
    hp.transitions
}

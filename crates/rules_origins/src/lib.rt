#![tactic(auto)]

// The checker's rules 1, 2, 3 and 5: origins that the plan knows, markings and caps, and the criterion.
// A number past all stands for none: the clauses name it so, by `breaker` of the checker's rules.
ghost use Rattle.std.specs.Prelude.{◌≡◌, ◌+◌, ◌*◌, ◌<◌, ◌≤◌, length};
ghost use Rattle.net.specs.Net.{Net, Uncapped};
ghost use Rattle.net.specs.Slice.{Slice};
ghost use Rattle.net.specs.Checker.{breaker, rule1, rule2, rule3, rule5};
ghost use Rattle.file.specs.Layout.{words_from, net_from, slice_from};
ghost use Rattle.file_header.specs.Facts.{Placed};
ghost use Rattle.file.specs.Facts.{Sound};
ghost use Rattle.file.specs.Criterion.{criterion_refusal};
ghost use Rattle.numbering.specs.Own.{Own, Origins};
ghost use Rattle.rules_origins.specs.Known.{Known, first_unknown, same_at};

use file_header::{CAPS, Header};
use file_words::get16;

// Scans `count` origins for the first that is not below `limit`; `count` where none is.
fn scan(slice: &[u8], start: usize, count: usize, limit: usize) -> usize
    requires { Origins slice.now start count }
    ensures { result ≡ first_unknown limit (words_from slice.now start count) count }
{
    for j in 0..count {
        if limit <= get16(slice, start + 2 * j) {
            return j;
        }
    }
    count
}

// The same: origins rise, so where the last is below, all are.
fn first_unknown(slice: &[u8], start: usize, count: usize, limit: usize) -> usize
    requires { Origins slice.now start count }
    ensures { result ≡ first_unknown limit (words_from slice.now start count) count }
{
    if count == 0 {
        return 0;
    }
    if get16(slice, start + 2 * (count - 1)) < limit {
        return count;
    }
    scan(slice, start, count, limit)
}

// Rule 1: the slice's lowest place whose origin is not below the plan's `places`; the slice's number of places where there is none.
pub fn unknown_place(slice: &[u8], hs: Header, places: usize) -> usize
    requires sound { Sound slice.now hs }
    requires kind_value { hs.kind ≡ 1 }
    ensures { (N : Net) → N.places ≡ places → result ≡ breaker (rule1 N (slice_from slice.now hs)) }
{
    first_unknown(slice, hs.originstart, hs.places, places)
}

// Rule 2: the slice's lowest transition whose origin is not below the plan's `transitions`; the slice's number of transitions where there is none.
pub fn unknown_transition(slice: &[u8], hs: Header, transitions: usize) -> usize
    requires sound { Sound slice.now hs }
    requires kind_value { hs.kind ≡ 1 }
    ensures { (N : Net) → N.transitions ≡ transitions → result ≡ breaker (rule2 N (slice_from slice.now hs)) }
{
    first_unknown(
        slice,
        hs.originstart + 2 * hs.places,
        hs.transitions,
        transitions,
    )
}

// Rule 3 where no place of the two has a cap: the plan's lowest kept place whose marking the slice has otherwise; the plan's number of places where there is none.
fn other_tokens(plan: &[u8], hp: Header, slice: &[u8], hs: Header) -> usize
    requires sound { Sound plan.now hp }
    requires sound_2 { Sound slice.now hs }
    requires kind_value { hs.kind ≡ 1 }
    requires known { Known hp.places (slice_from slice.now hs).place_origins }
    requires uncapped { Uncapped (net_from plan.now hp) }
    requires uncapped_2 { Uncapped (net_from slice.now hs) }
    ensures { result ≡ breaker (rule3 (net_from plan.now hp) (slice_from slice.now hs)) }
{
    let start = hs.originstart;
    for i in 0..hs.places {
        let p = get16(slice, start + 2 * i);
        let tokens = file::marking(plan, hp, p);
        if file::marking(slice, hs, i) != tokens {
            return p;
        }
    }
    hp.places
}

// Has the slice's place i the marking and the cap of the plan's place p?
fn alike(plan: &[u8], hp: Header, p: usize, slice: &[u8], hs: Header, i: usize) -> bool
    requires placed { Placed (length plan.now) hp }
    requires placed_2 { Placed (length slice.now) hs }
    requires p_lt_places { (p < hp.places) × (i < hs.places) }
    ensures { result ≡ same_at (net_from plan.now hp) (net_from slice.now hs) i p }
{
    let held = file::marking(plan, hp, p);
    let most = file::cap(plan, hp, p);
    (file::marking(slice, hs, i) == held) & (file::cap(slice, hs, i) == most)
}

// Rule 3 of all files, caps too.
fn other_place(plan: &[u8], hp: Header, slice: &[u8], hs: Header) -> usize
    requires sound { Sound plan.now hp }
    requires sound_2 { Sound slice.now hs }
    requires kind_value { hs.kind ≡ 1 }
    requires known { Known hp.places (slice_from slice.now hs).place_origins }
    ensures { result ≡ breaker (rule3 (net_from plan.now hp) (slice_from slice.now hs)) }
{
    let start = hs.originstart;
    for i in 0..hs.places {
        let origin = get16(slice, start + 2 * i);
        if !alike(plan, hp, origin, slice, hs, i) {
            return origin;
        }
    }
    hp.places
}

// Rule 3: the plan's lowest kept place whose marking or cap the slice has otherwise; the plan's number of places where there is none.
pub fn other_marking(plan: &[u8], hp: Header, slice: &[u8], hs: Header) -> usize
    requires sound { Sound plan.now hp }
    requires sound_2 { Sound slice.now hs }
    requires kind_value { hs.kind ≡ 1 }
    requires known { Known hp.places (slice_from slice.now hs).place_origins }
    ensures { result ≡ breaker (rule3 (net_from plan.now hp) (slice_from slice.now hs)) }
{
    if hp.edition == CAPS {
        return other_place(plan, hp, slice, hs);
    }
    if hs.edition == CAPS {
        return other_place(plan, hp, slice, hs);
    }
    other_tokens(plan, hp, slice, hs)
}

// Rule 5: the lowest place of the criterion that is not kept; the plan's number of places where there is none.
// `ownp` has the slice's own number of each place.
pub fn criterion_missing(criterion: &[u16], places: usize, ownp: &[u16]) -> usize
    requires criterion_value { criterion_refusal places criterion.now ≡ 0 }
    requires places_in_bounds { places ≤ length ownp.now }
    ensures { (N : Net) (S : Slice) → N.places ≡ places → Own S.place_origins ownp.now → result ≡ breaker (rule5 N S criterion.now) }
{
    for place in criterion {
        let q = usize::from(*place);
        if ownp[q] == 0 {
            return q;
        }
    }
    places
}

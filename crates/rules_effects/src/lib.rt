#![tactic(auto)]

// The checker's rules 6, 8 and 10: what the transitions left out do to places of the criterion, to kept places and to kept capped places.
// A number past all stands for none: the clauses name it so, by `breaker` of the checker's rules.
ghost use Rattle.std.specs.Prelude.{◌≡◌, not, ◌&&◌, ℕ, ◌<◌, ◌≤◌, length, get_or, eqb};
ghost use Rattle.net.specs.Numbers.{among, first};
ghost use Rattle.net.specs.Checker.{breaker, rule6, rule8, rule10};
ghost use Rattle.file.specs.Criterion.{criterion_refusal};
ghost use Rattle.file.specs.Layout.{net_from, slice_from};
ghost use Rattle.file_header.specs.Facts.{Placed};
ghost use Rattle.file.specs.Facts.{Sound};
ghost use Rattle.rules_tables.specs.Matched.{Starts, Matched};
ghost use Rattle.rules_effects.specs.Movers.{limit_on, change_limit, moved, Resting};

use arcs_column::AT_REST;
use file_header::Header;
use tables::entry;

// Does the transition t move a place past its limit? The column comes back at rest.
fn moves(
    plan: &[u8],
    hp: Header,
    table: &[u16],
    t: usize,
    limit: &[u32],
    column: &mut [u32],
) -> bool
    requires sound { Sound plan.now hp }
    requires starts { Starts plan.now hp table.now }
    requires resting { Resting hp.places column.old }
    requires limit_len { length limit.now ≡ length column.old }
    requires t_lt_transitions { t < hp.transitions }
    ensures value { result ≡ moved (net_from plan.now hp) limit.now t }
    ensures resting_2 { Resting hp.places column.new }
{
    let from = entry(table, 2 * t);
    let middle = entry(table, 2 * t + 1);
    let to = entry(table, 2 * t + 2);
    arcs_column::take(plan, hp.arcstart, from, middle, column);
    arcs_column::give(plan, hp.arcstart, middle, to, column);
    arcs_column::pulled(plan, hp.arcstart, from, to, limit, column)
}

// Is the transition t left out, and does it move a place past its limit?
fn left_out_moves(
    plan: &[u8],
    hp: Header,
    table: &[u16],
    slice: &[u8],
    hs: Header,
    ownp: &[u16],
    ownt: &[u16],
    t: usize,
    limit: &[u32],
    column: &mut [u32],
) -> bool
    requires cases { Matched plan.now hp table.now slice.now hs ownp.now ownt.now }
    requires resting { Resting hp.places column.old }
    requires limit_len { length limit.now ≡ length column.old }
    requires t_lt_transitions { t < hp.transitions }
    ensures value { result ≡ (moved (net_from plan.now hp) limit.now t && not (among t (slice_from slice.now hs).transition_origins)) }
    ensures resting_2 { Resting hp.places column.new }
{
    if entry(ownt, t) != 0 {
        return false;
    }
    moves(plan, hp, table, t, limit, column)
}

// The lowest transition left out that moves a place past its limit; the number of transitions where none does.
fn first_mover(
    plan: &[u8],
    hp: Header,
    table: &[u16],
    slice: &[u8],
    hs: Header,
    ownp: &[u16],
    ownt: &[u16],
    limit: &[u32],
    column: &mut [u32],
) -> usize
    requires cases { Matched plan.now hp table.now slice.now hs ownp.now ownt.now }
    requires resting { Resting hp.places column.old }
    requires limit_len { length limit.now ≡ length column.old }
    ensures value { result ≡ first (λ t. moved (net_from plan.now hp) limit.now t && not (among t (slice_from slice.now hs).transition_origins)) 0 hp.transitions }
    ensures resting_2 { Resting hp.places column.new }
{
    for t in 0..hp.transitions {
        if left_out_moves(plan, hp, table, slice, hs, ownp, ownt, t, limit, column) {
            return t;
        }
    }
    hp.transitions
}

// The limit that nothing passes: 2 ^ 32 - 1.
const NO_LIMIT: u32 = 4294967295;

// Sets the limits of the criterion's places to 0, which every change passes.
fn limit_criterion(criterion: &[u16], limit: &mut [u32])
    requires { (i : ℕ) → i < length criterion.now → get_or criterion.now i 0 < length limit.old }
    ensures { (p : ℕ) → p < length limit.old → get_or limit.new p 0 ≡ limit_on (among p criterion.now) 0 (get_or limit.old p 0) }
{
    for place in criterion {
        limit[usize::from(*place)] = 0;
    }
}

// The limit of a place by its entry in the table of own numbers.
fn raise_limit(own: usize) -> u32
    ensures { result ≡ limit_on (eqb own 0) 4294967295 1073741824 }
{
    if own == 0 { NO_LIMIT } else { AT_REST }
}

// Sets the limits of kept places to the column at rest, which every raise passes, and the others to the one that nothing passes.
fn limit_kept(places: usize, ownp: &[u16], limit: &mut [u32])
    requires places_in_bounds { places ≤ length ownp.now }
    requires places_in_bounds_2 { places ≤ length limit.old }
    ensures { (p : ℕ) → p < places → get_or limit.new p 0 ≡ limit_on (eqb (get_or ownp.now p 0) 0) 4294967295 1073741824 }
{
    for p in 0..places {
        limit[p] = raise_limit(entry(ownp, p));
    }
}

// The limit of a place by its entry in the table of own numbers and its cap: 0, which every change passes, where it is kept and capped.
fn change_limit(own: usize, cap: usize) -> u32
    ensures { result ≡ change_limit own cap }
{
    if own == 0 {
        return NO_LIMIT;
    }
    if cap == 0 { NO_LIMIT } else { 0 }
}

// Sets these limits.
fn limit_capped(plan: &[u8], hp: Header, ownp: &[u16], limit: &mut [u32])
    requires placed { Placed (length plan.now) hp }
    requires places_in_bounds { hp.places ≤ length ownp.now }
    requires places_in_bounds_2 { hp.places ≤ length limit.old }
    ensures { (p : ℕ) → p < hp.places → get_or limit.new p 0 ≡ change_limit (get_or ownp.now p 0) ((net_from plan.now hp).cap p) }
{
    for p in 0..hp.places {
        limit[p] = change_limit(entry(ownp, p), file::cap(plan, hp, p));
    }
}

// Rule 6: the lowest transition left out that changes a place of the criterion; the number of transitions where none does.
// `limit` is written over; the column comes back at rest.
pub fn changer_missing(
    plan: &[u8],
    hp: Header,
    table: &[u16],
    slice: &[u8],
    hs: Header,
    ownp: &[u16],
    ownt: &[u16],
    criterion: &[u16],
    limit: &mut [u32],
    column: &mut [u32],
) -> usize
    requires cases { Matched plan.now hp table.now slice.now hs ownp.now ownt.now }
    requires criterion_value { criterion_refusal hp.places criterion.now ≡ 0 }
    requires resting { Resting hp.places column.old }
    requires limit_len { length limit.old ≡ length column.old }
    ensures value { result ≡ breaker (rule6 (net_from plan.now hp) (slice_from slice.now hs) criterion.now) }
    ensures resting_2 { Resting hp.places column.new }
{
    limit.fill(NO_LIMIT);
    limit_criterion(criterion, limit);
    first_mover(plan, hp, table, slice, hs, ownp, ownt, limit, column)
}

// Rule 8: the lowest transition left out that raises a kept place; the number of transitions where none does.
// `limit` is written over; the column comes back at rest.
pub fn raiser_missing(
    plan: &[u8],
    hp: Header,
    table: &[u16],
    slice: &[u8],
    hs: Header,
    ownp: &[u16],
    ownt: &[u16],
    limit: &mut [u32],
    column: &mut [u32],
) -> usize
    requires cases { Matched plan.now hp table.now slice.now hs ownp.now ownt.now }
    requires resting { Resting hp.places column.old }
    requires limit_len { length limit.old ≡ length column.old }
    ensures value { result ≡ breaker (rule8 (net_from plan.now hp) (slice_from slice.now hs)) }
    ensures resting_2 { Resting hp.places column.new }
{
    limit_kept(hp.places, ownp, limit);
    first_mover(plan, hp, table, slice, hs, ownp, ownt, limit, column)
}

// Rule 10: the lowest transition left out that changes a kept capped place; the number of transitions where none does.
// `limit` is written over; the column comes back at rest.
pub fn cap_changer_missing(
    plan: &[u8],
    hp: Header,
    table: &[u16],
    slice: &[u8],
    hs: Header,
    ownp: &[u16],
    ownt: &[u16],
    limit: &mut [u32],
    column: &mut [u32],
) -> usize
    requires cases { Matched plan.now hp table.now slice.now hs ownp.now ownt.now }
    requires resting { Resting hp.places column.old }
    requires limit_len { length limit.old ≡ length column.old }
    ensures value { result ≡ breaker (rule10 (net_from plan.now hp) (slice_from slice.now hs)) }
    ensures resting_2 { Resting hp.places column.new }
{
    limit_capped(plan, hp, ownp, limit);
    first_mover(plan, hp, table, slice, hs, ownp, ownt, limit, column)
}

#![tactic(auto)]

// Rules 4 to 10 in tables that are not much larger than the nets.
ghost use Rattle.std.specs.Prelude.{◌≡◌, true, ◌*◌, ◌<◌, ◌≤◌};
ghost use Rattle.net.specs.Checker.{breaker, verdict_from, rule4};
ghost use Rattle.file.specs.Layout.{net_from, slice_from};
ghost use Rattle.promise.specs.Calls.{told};
ghost use Rattle.rules_tables.specs.Agreed.{Agreed};
ghost use Rattle.check_fast.specs.Pass.{Ready};
ghost use Rattle.check_rules.specs.Answer.{outcome_numbers};
ghost use Rattle.check_rules.specs.Room.{rules_from4, Judged};
ghost use Rattle.check_sizes.specs.Sizes.{KnownIn, Within};

use arcs_column::AT_REST;
use check_fast::{LEFT_PLACE, LEFT_TRANSITION};
use check_rules::{Outcome, lent_outcome};
use file_header::Header;
use tables::{LARGE, MIDDLE, SMALL};

// Have the plan and the slice at most n places and n transitions?
fn within(hp: Header, hs: Header, n: usize) -> bool
    ensures { result ≡ true → Within n hp hs }
{
    (hp.places <= n) & (hp.transitions <= n) & (hs.transitions <= n)
}

// The entries of a table of starts, for so many transitions.
const MIDDLE_STARTS: usize = 2 * MIDDLE + 1;

const LARGE_STARTS: usize = 2 * LARGE + 1;

// Rules 4 to 10 for nets of at most N places and N transitions; `doubt` is the first rule that is in doubt.
fn outcome_within<const N: usize, const STARTS: usize>(
    doubt: usize,
    plan: &[u8],
    hp: Header,
    slice: &[u8],
    hs: Header,
    criterion: &[u16],
) -> Outcome
    requires judged { Judged plan.now hp slice.now hs criterion.now }
    requires within { Within N hp hs }
    requires starts { (2 * N < STARTS) × (STARTS ≤ 2049) }
    requires agreed { Agreed doubt (net_from plan.now hp) (slice_from slice.now hs) criterion.now }
    ensures { outcome_numbers result ≡ told (verdict_from 4 (rules_from4 (net_from plan.now hp) (slice_from slice.now hs) criterion.now)) }
{
    let mut table = [0u16; STARTS];
    let mut runs = [0u16; STARTS];
    let mut ownp = [0u16; N];
    let mut ownt = [0u16; N];
    let mut limit = [0u32; N];
    let mut column = [AT_REST; N];
    lent_outcome(
        doubt,
        plan,
        hp,
        slice,
        hs,
        criterion,
        &mut table,
        &mut runs,
        &mut ownp,
        &mut ownt,
        &mut limit,
        &mut column,
    )
}

// Rules 4 to 10 in order, for all nets; `doubt` is the first rule that is in doubt.
pub fn sized(
    doubt: usize,
    plan: &[u8],
    hp: Header,
    slice: &[u8],
    hs: Header,
    criterion: &[u16],
) -> Outcome
    requires judged { Judged plan.now hp slice.now hs criterion.now }
    requires agreed { Agreed doubt (net_from plan.now hp) (slice_from slice.now hs) criterion.now }
    ensures { outcome_numbers result ≡ told (verdict_from 4 (rules_from4 (net_from plan.now hp) (slice_from slice.now hs) criterion.now)) }
{
    if within(hp, hs, MIDDLE) {
        return outcome_within::<MIDDLE, MIDDLE_STARTS>(doubt, plan, hp, slice, hs, criterion);
    }
    outcome_within::<LARGE, LARGE_STARTS>(doubt, plan, hp, slice, hs, criterion)
}

// What is known of the rules 4 to 10: the first that is in doubt, 11 where none is; and the lowest transition that breaks rule 4, past all where none is known.
#[derive(Clone, Copy)]
pub struct Found {
    pub doubt: usize,
    pub other: usize,
}

// What the pass told, and where rule 4 is in doubt what a second one tells, in the same tables.
fn further(
    doubt: usize,
    plan: &[u8],
    hp: Header,
    slice: &[u8],
    hs: Header,
    criterion: &[u16],
    places: &[usize],
    transitions: &[usize],
) -> Found
    requires agreed { Agreed doubt (net_from plan.now hp) (slice_from slice.now hs) criterion.now }
    requires ready { 0 < doubt → Ready plan.now hp slice.now hs criterion.now places.now transitions.now }
    ensures agreed_2 { Agreed result.doubt (net_from plan.now hp) (slice_from slice.now hs) criterion.now }
    ensures other_value { result.other < hp.transitions → result.other ≡ breaker (rule4 (net_from plan.now hp) (slice_from slice.now hs)) }
{
    if doubt != 4 {
        return Found {
            doubt,
            other: hp.transitions,
        };
    }
    let other = check_fast::first_other(plan, hp, slice, hs, criterion, places, transitions);
    Found { doubt, other }
}

// What one pass tells of the rules 4 to 10, for nets of at most N places and N transitions.
fn agrees_within<const N: usize>(
    plan: &[u8],
    hp: Header,
    slice: &[u8],
    hs: Header,
    criterion: &[u16],
) -> Found
    requires judged { Judged plan.now hp slice.now hs criterion.now }
    requires known_in { KnownIn hp (slice_from slice.now hs) }
    requires within { Within N hp hs }
    requires size { N ≤ 1024 }
    ensures agreed { Agreed result.doubt (net_from plan.now hp) (slice_from slice.now hs) criterion.now }
    ensures other_value { result.other < hp.transitions → result.other ≡ breaker (rule4 (net_from plan.now hp) (slice_from slice.now hs)) }
{
    let mut places = [LEFT_PLACE; N];
    let mut transitions = [LEFT_TRANSITION; N];
    let doubt = check_fast::agrees(
        plan,
        hp,
        slice,
        hs,
        criterion,
        &mut places,
        &mut transitions,
    );
    further(doubt, plan, hp, slice, hs, criterion, &places, &transitions)
}

// The same for nets that are not small, in tables of two sizes.
fn wide_agrees(plan: &[u8], hp: Header, slice: &[u8], hs: Header, criterion: &[u16]) -> Found
    requires judged { Judged plan.now hp slice.now hs criterion.now }
    requires known_in { KnownIn hp (slice_from slice.now hs) }
    ensures agreed { Agreed result.doubt (net_from plan.now hp) (slice_from slice.now hs) criterion.now }
    ensures other_value { result.other < hp.transitions → result.other ≡ breaker (rule4 (net_from plan.now hp) (slice_from slice.now hs)) }
{
    if within(hp, hs, MIDDLE) {
        return agrees_within::<MIDDLE>(plan, hp, slice, hs, criterion);
    }
    agrees_within::<LARGE>(plan, hp, slice, hs, criterion)
}

// The same where there are many places, and where there are many transitions: two functions, so that the compiler keeps the large tables out of the small net's frame.
fn many_places(plan: &[u8], hp: Header, slice: &[u8], hs: Header, criterion: &[u16]) -> Found
    requires judged { Judged plan.now hp slice.now hs criterion.now }
    requires known_in { KnownIn hp (slice_from slice.now hs) }
    ensures agreed { Agreed result.doubt (net_from plan.now hp) (slice_from slice.now hs) criterion.now }
    ensures other_value { result.other < hp.transitions → result.other ≡ breaker (rule4 (net_from plan.now hp) (slice_from slice.now hs)) }
{
    wide_agrees(plan, hp, slice, hs, criterion)
}

fn many_transitions(plan: &[u8], hp: Header, slice: &[u8], hs: Header, criterion: &[u16]) -> Found
    requires judged { Judged plan.now hp slice.now hs criterion.now }
    requires known_in { KnownIn hp (slice_from slice.now hs) }
    ensures agreed { Agreed result.doubt (net_from plan.now hp) (slice_from slice.now hs) criterion.now }
    ensures other_value { result.other < hp.transitions → result.other ≡ breaker (rule4 (net_from plan.now hp) (slice_from slice.now hs)) }
{
    wide_agrees(plan, hp, slice, hs, criterion)
}

// What one pass tells of the rules 4 to 10, in tables that are not much larger than the net.
pub fn agreeing(plan: &[u8], hp: Header, slice: &[u8], hs: Header, criterion: &[u16]) -> Found
    requires judged { Judged plan.now hp slice.now hs criterion.now }
    requires known_in { KnownIn hp (slice_from slice.now hs) }
    ensures agreed { Agreed result.doubt (net_from plan.now hp) (slice_from slice.now hs) criterion.now }
    ensures other_value { result.other < hp.transitions → result.other ≡ breaker (rule4 (net_from plan.now hp) (slice_from slice.now hs)) }
{
    if SMALL < hp.places {
        return many_places(plan, hp, slice, hs, criterion);
    }
    if (SMALL < hp.transitions) | (SMALL < hs.transitions) {
        return many_transitions(plan, hp, slice, hs, criterion);
    }
    agrees_within::<SMALL>(plan, hp, slice, hs, criterion)
}

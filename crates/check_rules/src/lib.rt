#![tactic(auto)]

// The rules 4 to 10 in order, and what the checker finds.
ghost use Rattle.std.specs.Prelude.{◌≡◌, ◌*◌, ◌<◌, length};
ghost use Rattle.net.specs.Checker.{breaker, verdict_from, rule4, rule6, rule7};
ghost use Rattle.file.specs.Layout.{net_from, slice_from};
ghost use Rattle.file.specs.Facts.{Sound};
ghost use Rattle.file.specs.Criterion.{criterion_refusal};
ghost use Rattle.promise.specs.Calls.{told};
ghost use Rattle.rules_tables.specs.Agreed.{Unbroken, Agreed};
ghost use Rattle.rules_tables.specs.Matched.{Matched};
ghost use Rattle.rules_effects.specs.Movers.{Resting};
ghost use Rattle.check_rules.specs.Answer.{outcome_numbers};
ghost use Rattle.check_rules.specs.Room.{rules_from4, rules_from6, rules_from9, Judged, Room, Filled};

use file_header::Header;

// "accepted, or the broken rule with its number": each rule with the place or transition that breaks it.
#[derive(Clone, Copy, Debug, PartialEq, Eq)]
pub enum Outcome {
    Accepted,
    UnknownPlace(u16),
    UnknownTransition(u16),
    OtherMarking(u16),
    OtherArcs(u16),
    CriterionMissing(u16),
    ChangerMissing(u16),
    InputMissing(u16),
    RaiserMissing(u16),
    OutputMissing(u16),
    CapChangerMissing(u16),
}

// Rule 4, where it is in doubt; `runs` gets the starts of the slice's arcs.
fn arcs_breaker(
    doubt: usize,
    plan: &[u8],
    hp: Header,
    table: &[u16],
    slice: &[u8],
    hs: Header,
    ownp: &[u16],
    ownt: &[u16],
    runs: &mut [u16],
) -> usize
    requires cases { Matched plan.now hp table.now slice.now hs ownp.now ownt.now }
    requires transitions_in_bounds { 2 * hs.transitions < length runs.old }
    requires unbroken { 4 < doubt → Unbroken (rule4 (net_from plan.now hp) (slice_from slice.now hs)) }
    ensures { result ≡ breaker (rule4 (net_from plan.now hp) (slice_from slice.now hs)) }
{
    if 4 < doubt {
        return hp.transitions;
    }
    arcs_starts::starts(slice, hs.arcstart, hs.arcs, hs.transitions, runs);
    rules_arcs::other_arcs(plan, hp, table, slice, hs, runs, ownp, ownt)
}

// Rule 6, where it is in doubt.
fn change_breaker(
    doubt: usize,
    plan: &[u8],
    hp: Header,
    table: &[u16],
    slice: &[u8],
    hs: Header,
    ownp: &[u16],
    ownt: &[u16],
    criterion: &[u16],
    limit: &mut [u32],
    column: &mut [u32],
) -> usize
    requires cases { Matched plan.now hp table.now slice.now hs ownp.now ownt.now }
    requires criterion_value { criterion_refusal hp.places criterion.now ≡ 0 }
    requires resting { Resting hp.places column.old }
    requires limit_len { length limit.old ≡ length column.old }
    requires unbroken { 6 < doubt → Unbroken (rule6 (net_from plan.now hp) (slice_from slice.now hs) criterion.now) }
    ensures value { result ≡ breaker (rule6 (net_from plan.now hp) (slice_from slice.now hs) criterion.now) }
    ensures resting_2 { Resting hp.places column.new }
{
    if 6 < doubt {
        return hp.transitions;
    }
    rules_effects::changer_missing(
        plan, hp, table, slice, hs, ownp, ownt, criterion, limit, column,
    )
}

// Rule 7, where it is in doubt.
fn input_breaker(
    doubt: usize,
    plan: &[u8],
    hp: Header,
    table: &[u16],
    slice: &[u8],
    hs: Header,
    ownp: &[u16],
    ownt: &[u16],
) -> usize
    requires cases { Matched plan.now hp table.now slice.now hs ownp.now ownt.now }
    requires unbroken { 7 < doubt → Unbroken (rule7 (net_from plan.now hp) (slice_from slice.now hs)) }
    ensures { result ≡ breaker (rule7 (net_from plan.now hp) (slice_from slice.now hs)) }
{
    if 7 < doubt {
        return hp.transitions;
    }
    rules_arcs::input_missing(plan, hp, table, slice, hs, ownp, ownt)
}

// Rules 9 and 10, which hold where the plan has no caps.
fn caps_outcome(
    plan: &[u8],
    hp: Header,
    table: &[u16],
    slice: &[u8],
    hs: Header,
    ownp: &[u16],
    ownt: &[u16],
    limit: &mut [u32],
    column: &mut [u32],
) -> Outcome
    requires cases { Matched plan.now hp table.now slice.now hs ownp.now ownt.now }
    requires resting { Resting hp.places column.old }
    requires limit_len { length limit.old ≡ length column.old }
    ensures { outcome_numbers result ≡ told (verdict_from 9 (rules_from9 (net_from plan.now hp) (slice_from slice.now hs))) }
{
    if !file::has_caps(plan, hp) {
        return Outcome::Accepted;
    }
    let transitions = hp.transitions;
    let giver = rules_arcs::output_missing(plan, hp, table, slice, hs, ownp, ownt);
    if giver < transitions {
        return Outcome::OutputMissing(giver as u16);
    }
    let mover = rules_effects::cap_changer_missing(
        plan, hp, table, slice, hs, ownp, ownt, limit, column,
    );
    if mover < transitions {
        return Outcome::CapChangerMissing(mover as u16);
    }
    Outcome::Accepted
}

// Rules 6 to 10; `doubt` is the first rule that is in doubt.
fn movers_outcome(
    doubt: usize,
    plan: &[u8],
    hp: Header,
    table: &[u16],
    slice: &[u8],
    hs: Header,
    ownp: &[u16],
    ownt: &[u16],
    criterion: &[u16],
    limit: &mut [u32],
    column: &mut [u32],
) -> Outcome
    requires cases { Matched plan.now hp table.now slice.now hs ownp.now ownt.now }
    requires criterion_value { criterion_refusal hp.places criterion.now ≡ 0 }
    requires resting { Resting hp.places column.old }
    requires limit_len { length limit.old ≡ length column.old }
    requires agreed { Agreed doubt (net_from plan.now hp) (slice_from slice.now hs) criterion.now }
    ensures { outcome_numbers result ≡ told (verdict_from 6 (rules_from6 (net_from plan.now hp) (slice_from slice.now hs) criterion.now)) }
{
    let transitions = hp.transitions;
    let changer = change_breaker(
        doubt, plan, hp, table, slice, hs, ownp, ownt, criterion, limit, column,
    );
    if changer < transitions {
        return Outcome::ChangerMissing(changer as u16);
    }
    let taker = input_breaker(doubt, plan, hp, table, slice, hs, ownp, ownt);
    if taker < transitions {
        return Outcome::InputMissing(taker as u16);
    }
    let raiser = rules_effects::raiser_missing(
        plan, hp, table, slice, hs, ownp, ownt, limit, column,
    );
    if raiser < transitions {
        return Outcome::RaiserMissing(raiser as u16);
    }
    caps_outcome(plan, hp, table, slice, hs, ownp, ownt, limit, column)
}

// Rules 4 to 10; `doubt` is the first rule that is in doubt. `table` has the starts of the plan's arcs.
fn links_outcome(
    doubt: usize,
    plan: &[u8],
    hp: Header,
    table: &[u16],
    slice: &[u8],
    hs: Header,
    runs: &mut [u16],
    ownp: &[u16],
    ownt: &[u16],
    criterion: &[u16],
    limit: &mut [u32],
    column: &mut [u32],
) -> Outcome
    requires cases { Matched plan.now hp table.now slice.now hs ownp.now ownt.now }
    requires transitions_in_bounds { 2 * hs.transitions < length runs.old }
    requires criterion_value { criterion_refusal hp.places criterion.now ≡ 0 }
    requires resting { Resting hp.places column.old }
    requires limit_len { length limit.old ≡ length column.old }
    requires agreed { Agreed doubt (net_from plan.now hp) (slice_from slice.now hs) criterion.now }
    ensures { outcome_numbers result ≡ told (verdict_from 4 (rules_from4 (net_from plan.now hp) (slice_from slice.now hs) criterion.now)) }
{
    let places = hp.places;
    let transitions = hp.transitions;
    let other = arcs_breaker(doubt, plan, hp, table, slice, hs, ownp, ownt, runs);
    if other < transitions {
        return Outcome::OtherArcs(other as u16);
    }
    let missing = rules_origins::criterion_missing(criterion, places, ownp);
    if missing < places {
        return Outcome::CriterionMissing(missing as u16);
    }
    movers_outcome(
        doubt, plan, hp, table, slice, hs, ownp, ownt, criterion, limit, column,
    )
}

// The slice's own numbers of places and transitions.
fn fill_own(slice: &[u8], hs: Header, ownp: &mut [u16], ownt: &mut [u16])
    requires sound { Sound slice.now hs }
    requires kind_value { hs.kind ≡ 1 }
    ensures { Filled slice.now hs ownp.old ownp.new ownt.old ownt.new }
{
    numbering::own(slice, hs.originstart, hs.places, ownp);
    numbering::own(slice, hs.originstart + 2 * hs.places, hs.transitions, ownt);
}

// Rules 4 to 10, in arrays that are lent; `doubt` is the first rule that is in doubt.
pub fn lent_outcome(
    doubt: usize,
    plan: &[u8],
    hp: Header,
    slice: &[u8],
    hs: Header,
    criterion: &[u16],
    table: &mut [u16],
    runs: &mut [u16],
    ownp: &mut [u16],
    ownt: &mut [u16],
    limit: &mut [u32],
    column: &mut [u32],
) -> Outcome
    requires judged { Judged plan.now hp slice.now hs criterion.now }
    requires agreed { Agreed doubt (net_from plan.now hp) (slice_from slice.now hs) criterion.now }
    requires room { Room hp hs (length table.old) (length runs.old) (length ownp.old) (length ownt.old) }
    requires resting { Resting hp.places column.old }
    requires limit_len { length limit.old ≡ length column.old }
    ensures { outcome_numbers result ≡ told (verdict_from 4 (rules_from4 (net_from plan.now hp) (slice_from slice.now hs) criterion.now)) }
{
    arcs_starts::starts(plan, hp.arcstart, hp.arcs, hp.transitions, table);
    fill_own(slice, hs, ownp, ownt);
    links_outcome(
        doubt, plan, hp, table, slice, hs, runs, ownp, ownt, criterion, limit, column,
    )
}

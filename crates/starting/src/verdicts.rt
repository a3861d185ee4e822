// The verdict for a plan, a slice and a criterion, none of them turned back, from a start that is not refused: rule 3 compares with the start, every other rule is the plain check's.
ghost use Rattle.std.specs.Prelude.{◌≡◌, ◌<◌, length};
ghost use Rattle.net.specs.Checker.{breaker, rule3, verdict};
ghost use Rattle.file_header.specs.Facts.{Placed};
ghost use Rattle.file.specs.Layout.{net_from, slice_from};
ghost use Rattle.file.specs.Facts.{Sound, Opened};
ghost use Rattle.file.specs.Criterion.{criterion_refusal};
ghost use Rattle.file_header.specs.declared.Due.TheVariants as due;
ghost use Rattle.promise.specs.Calls.{told};
ghost use Rattle.promise.specs.Together.{standing};
ghost use Rattle.promise.specs.Starts.{starting_at, started_from};
ghost use Rattle.inputs_starts.specs.Startable.{Startable};
ghost use Rattle.rules_origins.specs.Known.{Known, same_at};
ghost use Rattle.check_rules.specs.Answer.{outcome_numbers};
ghost use Rattle.check_rules.specs.Room.{Judged};
ghost use Rattle.checker.specs.Answer.{verdict_numbers};

use checker::{Outcome, Verdict};
use file_header::Header;
use file_words::get16;

// Has the slice's place i so many tokens, and the cap of the plan's place p?
fn alike(plan: &[u8], hp: Header, p: usize, tokens: u64, slice: &[u8], hs: Header, i: usize) -> bool
    requires placed { Placed (length plan.now) hp }
    requires placed_2 { Placed (length slice.now) hs }
    requires p_lt_places { (p < hp.places) × (i < hs.places) }
    ensures { result ≡ same_at (starting_at (λ q. tokens) (net_from plan.now hp)) (net_from slice.now hs) i p }
{
    let held = file::marking(slice, hs, i) as u64;
    let most = file::cap(plan, hp, p);
    (held == tokens) & (file::cap(slice, hs, i) == most)
}

// Rule 3: the plan's lowest kept place whose tokens in the start or whose cap the slice has otherwise; the plan's number of places where there is none.
fn other_start(plan: &[u8], hp: Header, slice: &[u8], hs: Header, start: &[u64]) -> usize
    requires placed { Placed (length plan.now) hp }
    requires sound { Sound slice.now hs }
    requires kind_value { hs.kind ≡ 1 }
    requires known { Known hp.places (slice_from slice.now hs).place_origins }
    requires start_len { length start.now ≡ hp.places }
    ensures { result ≡ breaker (rule3 (starting_at (standing start.now) (net_from plan.now hp)) (slice_from slice.now hs)) }
{
    let first = hs.originstart;
    for i in 0..hs.places {
        let origin = get16(slice, first + 2 * i);
        let tokens = start[origin];
        if !alike(plan, hp, origin, tokens, slice, hs, i) {
            return origin;
        }
    }
    hp.places
}

// Rules 1 to 3, then the others.
fn whole_outcome(
    plan: &[u8],
    hp: Header,
    slice: &[u8],
    hs: Header,
    start: &[u64],
    criterion: &[u16],
) -> Outcome
    requires judged { Judged plan.now hp slice.now hs criterion.now }
    requires start_len { length start.now ≡ hp.places }
    ensures { outcome_numbers result ≡ told (verdict (starting_at (standing start.now) (net_from plan.now hp)) (slice_from slice.now hs) criterion.now) }
{
    let i = rules_origins::unknown_place(slice, hs, hp.places);
    if i < hs.places {
        return Outcome::UnknownPlace(i as u16);
    }
    let j = rules_origins::unknown_transition(slice, hs, hp.transitions);
    if j < hs.transitions {
        return Outcome::UnknownTransition(j as u16);
    }
    let p = other_start(plan, hp, slice, hs, start);
    if p < hp.places {
        return Outcome::OtherMarking(p as u16);
    }
    checker::others_outcome(plan, hp, slice, hs, criterion)
}

// The verdict.
pub fn judge(
    plan: &[u8],
    p: Header,
    slice: &[u8],
    s: Header,
    start: &[u64],
    criterion: &[u16],
) -> Verdict
    requires startable { Startable due.Plan plan.now p start.now }
    requires opened { Opened due.Slice slice.now s }
    requires criterion_value { criterion_refusal p.places criterion.now ≡ 0 }
    ensures { verdict_numbers result ≡ told (verdict (net_from (started_from plan.now p start.now) p) (slice_from slice.now s) criterion.now) }
{
    let found = whole_outcome(plan, p, slice, s, start, criterion);
    Verdict { outcome: found }
}

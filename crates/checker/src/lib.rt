#![tactic(auto)]

// The checker: rules 1 to 3, then the others, and the verdict.
ghost use Rattle.std.specs.Prelude.{◌≡◌, ◌/◌, ◌≤◌, length};
ghost use Rattle.net.specs.Checker.{verdict_from, verdict};
ghost use Rattle.file.specs.Layout.{net_from, slice_from};
ghost use Rattle.file.specs.Facts.{Sound};
ghost use Rattle.file.specs.Criterion.{criterion_of, criterion_bytes_refusal};
ghost use Rattle.promise.specs.Calls.{told};
ghost use Rattle.rules_tables.specs.Agreed.{Agreed};
ghost use Rattle.check_rules.specs.Answer.{outcome_numbers};
ghost use Rattle.check_rules.specs.Room.{rules_from4, Judged};
ghost use Rattle.check_sizes.specs.Sizes.{KnownIn};
ghost use Rattle.checker.specs.Answer.{numbers_of, verdict_numbers};

pub use check_rules::Outcome;
use check_sizes::{agreeing, sized};
use file_header::Header;
use refusals::Refusal;
use tables::{LARGE, SMALL};

#[derive(Clone, Copy, Debug, PartialEq, Eq)]
pub struct Verdict {
    pub outcome: Outcome,
}

// 0 accepted, 100 plus the rule otherwise.
fn rule_code(o: Outcome) -> u32
    ensures { result ≡ (outcome_numbers o).code }
{
    match o {
        Outcome::Accepted => 0,
        Outcome::UnknownPlace(_) => 101,
        Outcome::UnknownTransition(_) => 102,
        Outcome::OtherMarking(_) => 103,
        Outcome::OtherArcs(_) => 104,
        Outcome::CriterionMissing(_) => 105,
        Outcome::ChangerMissing(_) => 106,
        Outcome::InputMissing(_) => 107,
        Outcome::RaiserMissing(_) => 108,
        Outcome::OutputMissing(_) => 109,
        Outcome::CapChangerMissing(_) => 110,
    }
}

// The place or transition that breaks the rule; 0 where none is broken.
fn breaker(o: Outcome) -> u32
    ensures { result ≡ (outcome_numbers o).number }
{
    match o {
        Outcome::Accepted => 0,
        Outcome::UnknownPlace(n) => u32::from(n),
        Outcome::UnknownTransition(n) => u32::from(n),
        Outcome::OtherMarking(n) => u32::from(n),
        Outcome::OtherArcs(n) => u32::from(n),
        Outcome::CriterionMissing(n) => u32::from(n),
        Outcome::ChangerMissing(n) => u32::from(n),
        Outcome::InputMissing(n) => u32::from(n),
        Outcome::RaiserMissing(n) => u32::from(n),
        Outcome::OutputMissing(n) => u32::from(n),
        Outcome::CapChangerMissing(n) => u32::from(n),
    }
}

// What a check answers, as one number: 0 accepted, below 100 a refusal, 100 plus the rule otherwise.
pub fn code(r: Result<Verdict, Refusal>) -> u32
    ensures { result ≡ (numbers_of r).code }
{
    match r {
        Ok(v) => rule_code(v.outcome),
        Err(e) => e.number(),
    }
}

// The place or transition that breaks the rule; 0 where none is broken.
pub fn number(r: Result<Verdict, Refusal>) -> u32
    ensures { result ≡ (numbers_of r).number }
{
    match r {
        Ok(v) => breaker(v.outcome),
        Err(_) => 0,
    }
}

// Every rule from 4 on, and the rules from the first in doubt on: two functions, so that the compiler keeps their tables out of the frame of a check that is accepted at once.
fn all_in_doubt(plan: &[u8], hp: Header, slice: &[u8], hs: Header, criterion: &[u16]) -> Outcome
    requires judged { Judged plan.now hp slice.now hs criterion.now }
    requires agreed { Agreed 0 (net_from plan.now hp) (slice_from slice.now hs) criterion.now }
    ensures { outcome_numbers result ≡ told (verdict_from 4 (rules_from4 (net_from plan.now hp) (slice_from slice.now hs) criterion.now)) }
{
    sized(0, plan, hp, slice, hs, criterion)
}

fn in_doubt(
    doubt: usize,
    plan: &[u8],
    hp: Header,
    slice: &[u8],
    hs: Header,
    criterion: &[u16],
) -> Outcome
    requires judged { Judged plan.now hp slice.now hs criterion.now }
    requires agreed { Agreed doubt (net_from plan.now hp) (slice_from slice.now hs) criterion.now }
    ensures { outcome_numbers result ≡ told (verdict_from 4 (rules_from4 (net_from plan.now hp) (slice_from slice.now hs) criterion.now)) }
{
    sized(doubt, plan, hp, slice, hs, criterion)
}

// Rules 4 to 10, of places and transitions that the plan knows: one pass, then the rules that it leaves in doubt.
pub fn others_outcome(
    plan: &[u8],
    hp: Header,
    slice: &[u8],
    hs: Header,
    criterion: &[u16],
) -> Outcome
    requires judged { Judged plan.now hp slice.now hs criterion.now }
    requires known_in { KnownIn hp (slice_from slice.now hs) }
    ensures { outcome_numbers result ≡ told (verdict_from 4 (rules_from4 (net_from plan.now hp) (slice_from slice.now hs) criterion.now)) }
{
    let found = agreeing(plan, hp, slice, hs, criterion);
    let doubt = found.doubt;
    if 10 < doubt {
        return Outcome::Accepted;
    }
    if doubt == 0 {
        return all_in_doubt(plan, hp, slice, hs, criterion);
    }
    let t = found.other;
    if t < hp.transitions {
        return Outcome::OtherArcs(t as u16);
    }
    in_doubt(doubt, plan, hp, slice, hs, criterion)
}

// Rules 1 to 3, then the others.
fn whole_outcome(plan: &[u8], hp: Header, slice: &[u8], hs: Header, criterion: &[u16]) -> Outcome
    requires { Judged plan.now hp slice.now hs criterion.now }
    ensures { outcome_numbers result ≡ told (verdict (net_from plan.now hp) (slice_from slice.now hs) criterion.now) }
{
    let i = rules_origins::unknown_place(slice, hs, hp.places);
    if i < hs.places {
        return Outcome::UnknownPlace(i as u16);
    }
    let j = rules_origins::unknown_transition(slice, hs, hp.transitions);
    if j < hs.transitions {
        return Outcome::UnknownTransition(j as u16);
    }
    let p = rules_origins::other_marking(plan, hp, slice, hs);
    if p < hp.places {
        return Outcome::OtherMarking(p as u16);
    }
    others_outcome(plan, hp, slice, hs, criterion)
}

// The verdict for a plan, a slice and a criterion, none of them turned back.
pub fn judge(plan: &[u8], hp: Header, slice: &[u8], hs: Header, criterion: &[u16]) -> Verdict
    requires { Judged plan.now hp slice.now hs criterion.now }
    ensures { verdict_numbers result ≡ told (verdict (net_from plan.now hp) (slice_from slice.now hs) criterion.now) }
{
    let found = whole_outcome(plan, hp, slice, hs, criterion);
    Verdict { outcome: found }
}

// The same in a number, for a criterion of 2 bytes a place, in a list that is lent.
fn judge_in(plan: &[u8], hp: Header, slice: &[u8], hs: Header, q: &[u8], list: &mut [u16]) -> u32
    requires sound { Sound plan.now hp }
    requires sound_2 { Sound slice.now hs }
    requires kind_value { hs.kind ≡ 1 }
    requires q_value { criterion_bytes_refusal hp.places q.now ≡ 0 }
    requires q_in_bounds { length q.now / 2 ≤ length list.old }
    ensures { result ≡ (told (verdict (net_from plan.now hp) (slice_from slice.now hs) (criterion_of q.now))).code }
{
    let count = q.len() / 2;
    inputs_criterion::decode(q, count, list);
    rule_code(judge(plan, hp, slice, hs, &list[..count]).outcome)
}

// A criterion of so many bytes has a small list.
const FEW_BYTES: usize = 2 * SMALL;

// The same: 0 accepted, 100 plus the rule otherwise.
pub fn judge_bytes(plan: &[u8], hp: Header, slice: &[u8], hs: Header, q: &[u8]) -> u32
    requires sound { Sound plan.now hp }
    requires sound_2 { Sound slice.now hs }
    requires kind_value { hs.kind ≡ 1 }
    requires q_value { criterion_bytes_refusal hp.places q.now ≡ 0 }
    ensures { result ≡ (told (verdict (net_from plan.now hp) (slice_from slice.now hs) (criterion_of q.now))).code }
{
    if q.len() <= FEW_BYTES {
        let mut few = [0u16; SMALL];
        return judge_in(plan, hp, slice, hs, q, &mut few);
    }
    let mut list = [0u16; LARGE];
    judge_in(plan, hp, slice, hs, q, &mut list)
}

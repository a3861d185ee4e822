#![tactic(auto)]

// Programs that use the answer of `range` and the need that it writes. What each ensures follows from the contracts of the public calls alone.
ghost use Rattle.std.specs.Prelude.{◌≡◌, true, false, not, ◌||◌, ◌&&◌, ◌↔◌, ◌≤◌, length, eqb};
ghost use Rattle.net.specs.Net.{Fires};
ghost use Rattle.net.specs.Range.{covers};
ghost use Rattle.file.specs.Layout.{net_of};
ghost use Rattle.promise.specs.Together.{standing};
ghost use Rattle.promise.specs.Range.{range_answer};
ghost use Rattle.range.specs.Told.{range_numbers};
ghost use Rattle.replay.specs.Told.{outcome_numbers};
ghost use Rattle.clients_range.specs.Cases.{case_of, agreeing};

use range::Range;
use refusals::Refusal;
use replay::Outcome;

// Has each place of the plan in `tokens` what it has in `needed`?
fn has_all(plan: &[u8], needed: &[u64], tokens: &[u64], places: usize) -> bool
    requires { (places ≡ (net_of plan.now).places) × (places ≤ length needed.now) × (places ≤ length tokens.now) }
    ensures { result ≡ covers (net_of plan.now) (standing tokens.now) (standing needed.now) }
{
    for p in 0..places {
        if tokens[p] < needed[p] {
            return false;
        }
    }
    true
}

// Do the two answers agree? One that is refused says nothing.
fn agreed(a: Result<Range, Refusal>, o: Result<Outcome, Refusal>) -> bool
    ensures { result ≡ agreeing (range_numbers a).refused (outcome_numbers o).refused (range_numbers a).every (outcome_numbers o).stuck }
{
    match (a, o) {
        (Ok(a), Ok(o)) => (a == Range::Every) == (o == Outcome::Fired),
        _ => true,
    }
}

// Are the two answers the same? One that is refused says nothing.
fn same(a: Result<Range, Refusal>, b: Result<Range, Refusal>) -> bool
    ensures { result ≡ (((range_numbers a).refused || (range_numbers b).refused) || eqb (case_of (range_numbers a)) (case_of (range_numbers b))) }
{
    match (a, b) {
        (Ok(a), Ok(b)) => a == b,
        _ => true,
    }
}

// Do `range` and `replay` agree? Neither of them being refused, every marking in the range fires the list exactly where its replay does not stick.
pub fn agree(
    plan: &[u8],
    list: &[u16],
    upper: &[u32],
    need: &mut [u64],
    marking: &mut [u64],
) -> bool
    ensures { result ≡ true }
{
    let a = call_firing::ranges::range(plan, list, upper, need);
    let o = call_firing::replays::replay(plan, list, marking);
    agreed(a, o)
}

// Asked twice, does `range` answer the same?
pub fn same_twice(
    plan: &[u8],
    list: &[u16],
    upper: &[u32],
    first: &mut [u64],
    second: &mut [u64],
) -> bool
    ensures { result ≡ true }
{
    let a = call_firing::ranges::range(plan, list, upper, first);
    let b = call_firing::ranges::range(plan, list, upper, second);
    same(a, b)
}

// Does the list fire from `tokens`? By what it needs, with no replay: any marking can be asked for, in the range or not.
pub fn enough(plan: &[u8], list: &[u16], upper: &[u32], need: &mut [u64], tokens: &[u64]) -> bool
    ensures { (range_answer plan.now list.now upper.now (length need.old)).refused ≡ false → length tokens.now ≡ (net_of plan.now).places → (result ≡ true) ↔ Fires (net_of plan.now) (standing tokens.now) list.now }
{
    let a = call_firing::ranges::range(plan, list, upper, need);
    if a.is_err() {
        return false;
    }
    if tokens.len() != upper.len() {
        return false;
    }
    has_all(plan, need, tokens, upper.len())
}

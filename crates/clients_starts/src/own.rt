// The calls from a file's own marking, which the replay of no firing leaves: they are the plain calls.
ghost use Rattle.std.specs.Prelude.{◌≡◌, length};
ghost use Rattle.file.specs.Layout.{net_of};
ghost use Rattle.promise.specs.Calls.{safety_answer, safety_buffer, branching_answer, branching_buffer, checked};
ghost use Rattle.promise.specs.Firing.{replay_answer, replay_marking};
ghost use Rattle.replay.specs.Told.{outcome_numbers};
ghost use Rattle.slice.specs.Kept.{cut_numbers};
ghost use Rattle.checker.specs.Answer.{numbers_of};

use checker::Verdict;
use refusals::Refusal;
use replay::Outcome;
use slice::Written;

// In each of them `own` has an entry for each place, and gets the file's marking.
pub fn replay(
    file: &[u8],
    list: &[u16],
    own: &mut [u64],
    marking: &mut [u64],
) -> Result<Outcome, Refusal>
    ensures answer { length own.old ≡ (net_of file.now).places → outcome_numbers result ≡ replay_answer file.now list.now (length marking.old) }
    ensures marking { length own.old ≡ (net_of file.now).places → marking.new ≡ replay_marking file.now list.now marking.old }
{
    let _ = call_firing::replays::replay(file, &list[..0], own);
    call_firing::starts::replay_from(file, own, list, marking)
}

pub fn safety(
    plan: &[u8],
    criterion: &[u16],
    own: &mut [u64],
    buffer: &mut [u8],
) -> Result<Written, Refusal>
    ensures answer { length own.old ≡ (net_of plan.now).places → cut_numbers result ≡ safety_answer plan.now criterion.now (length buffer.old) }
    ensures buffer { length own.old ≡ (net_of plan.now).places → buffer.new ≡ safety_buffer plan.now criterion.now buffer.old }
{
    let _ = call_firing::replays::replay(plan, &criterion[..0], own);
    call_cuts::starts::safety_from(plan, own, criterion, buffer)
}

pub fn branching(
    plan: &[u8],
    criterion: &[u16],
    own: &mut [u64],
    buffer: &mut [u8],
) -> Result<Written, Refusal>
    ensures answer { length own.old ≡ (net_of plan.now).places → cut_numbers result ≡ branching_answer plan.now criterion.now (length buffer.old) }
    ensures buffer { length own.old ≡ (net_of plan.now).places → buffer.new ≡ branching_buffer plan.now criterion.now buffer.old }
{
    let _ = call_firing::replays::replay(plan, &criterion[..0], own);
    call_cuts::starts::branching_from(plan, own, criterion, buffer)
}

pub fn check(
    plan: &[u8],
    slice: &[u8],
    criterion: &[u16],
    own: &mut [u64],
) -> Result<Verdict, Refusal>
    ensures answer { length own.old ≡ (net_of plan.now).places → numbers_of result ≡ checked plan.now slice.now criterion.now }
{
    let _ = call_firing::replays::replay(plan, &criterion[..0], own);
    call_check::starts::check_from(plan, slice, own, criterion)
}

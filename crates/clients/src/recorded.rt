// The run cut, then a replay of the chosen firings on the slice that it wrote; and a list that sticks, by both calls.
ghost use Rattle.std.specs.Prelude.{◌≡◌, true, false, ◌≤◌, length, take};
ghost use Rattle.net.specs.Slice.{own};
ghost use Rattle.net.specs.Guarantee.{plan_tokens};
ghost use Rattle.net.specs.Run.{fired_at};
ghost use Rattle.file.specs.Layout.{net_of, slice_of};
ghost use Rattle.promise.specs.Firing.{replay_refusal};
ghost use Rattle.promise.specs.RunCut.{run_answer};
ghost use Rattle.replay.specs.Told.{outcome_numbers};
ghost use Rattle.run_cut.specs.Told.{run_numbers};
ghost use Rattle.clients.specs.Ended.{EndedAbove};

use refusals::Refusal;
use replay::Outcome;
use run_cut::RunCut;

// The length of the file that the run cut wrote, 0 where it is refused.
pub fn length_of(c: Result<RunCut, Refusal>) -> u32
    ensures { result ≡ (run_numbers c).length }
{
    match c {
        Ok(RunCut::Written(n, _, _, _)) => n,
        Ok(RunCut::Sticks(_, _, _)) => 0,
        Err(_) => 0,
    }
}

// `chosen` has the chosen firings in the slice's own numbers: they are answered fired there, with at least the plan's tokens on the criterion.
pub fn chosen_on_slice(
    plan: &[u8],
    criterion: &[u16],
    list: &[u16],
    chosen: &[u16],
    buffer: &mut [u8],
    positions: &mut [u16],
    again: &mut [u64],
) -> Result<Outcome, Refusal>
    ensures { (run_answer plan.now criterion.now list.now (length buffer.old) (length positions.old)).refusal ≡ 0 → chosen.now ≡ own (slice_of (take (run_answer plan.now criterion.now list.now (length buffer.old) (length positions.old)).length buffer.new)).transition_origins (fired_at list.now (take (run_answer plan.now criterion.now list.now (length buffer.old) (length positions.old)).count positions.new)) → (net_of (take (run_answer plan.now criterion.now list.now (length buffer.old) (length positions.old)).length buffer.new)).places ≤ length again.old → EndedAbove (take (run_answer plan.now criterion.now list.now (length buffer.old) (length positions.old)).length buffer.new) criterion.now (outcome_numbers result) again.new (plan_tokens (net_of plan.now) list.now) }
{
    let c = call_cuts::recorded::run_cut(plan, criterion, list, buffer, positions);
    let end = length_of(c) as usize;
    call_firing::replays::replay(&buffer[..end], chosen, again)
}

// The run cut of a list that sticks, then a replay of the list on the plan: 14 tells the index, the place and the shortage that the replay tells.
pub fn stuck_alike(
    plan: &[u8],
    criterion: &[u16],
    list: &[u16],
    buffer: &mut [u8],
    positions: &mut [u16],
    marking: &mut [u64],
) -> Result<Outcome, Refusal>
    ensures { (run_answer plan.now criterion.now list.now (length buffer.old) (length positions.old)).refusal ≡ 14 → replay_refusal plan.now list.now (length marking.old) ≡ 0 → outcome_numbers result ≡ record { refused = false; refusal = 0; stuck = true; full = false; index = (run_answer plan.now criterion.now list.now (length buffer.old) (length positions.old)).index; place = (run_answer plan.now criterion.now list.now (length buffer.old) (length positions.old)).place; amount = (run_answer plan.now criterion.now list.now (length buffer.old) (length positions.old)).amount } }
{
    let _cut = call_cuts::recorded::run_cut(plan, criterion, list, buffer, positions);
    call_firing::replays::replay(plan, list, marking)
}

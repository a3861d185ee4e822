// A run of the plan and its shadow, then a replay of the shadow on the slice.
ghost use Rattle.std.specs.Prelude.{◌≡◌, false, List, ℕ, ◌≤◌, length};
ghost use Rattle.file.specs.Layout.{net_of};
ghost use Rattle.promise.specs.Calls.{Accepts};
ghost use Rattle.promise.specs.Shadow.{shadow_answer};
ghost use Rattle.promise.specs.Together.{standing};
ghost use Rattle.replay.specs.Told.{outcome_numbers};
ghost use Rattle.shadow.specs.Told.{shadow_numbers};
ghost use Rattle.clients.specs.Ended.{EndedWith};

use refusals::Refusal;
use replay::Outcome;
use shadow::Shadow;

// How many entries of the output list are written.
pub fn count_of(s: Result<Shadow, Refusal>) -> u32
    ensures { result ≡ (shadow_numbers s).count }
{
    match s {
        Ok(Shadow::Fired(n)) => n,
        Ok(Shadow::Short(_, _, _, n)) => n,
        Ok(Shadow::Full(_, _, _, n)) => n,
        Err(_) => 0,
    }
}

// Stuck or not: in a slice that is accepted for a criterion the shadow is answered fired, with the run's tokens on the criterion.
pub fn shadow_on_slice(
    plan: &[u8],
    slice: &[u8],
    list: &[u16],
    marking: &mut [u64],
    out: &mut [u16],
    again: &mut [u64],
) -> Result<Outcome, Refusal>
    ensures { (Q : List ℕ) → Accepts plan.now slice.now Q → (shadow_answer plan.now slice.now list.now (length marking.old) (length out.old)).run.refused ≡ false → (net_of slice.now).places ≤ length again.old → EndedWith slice.now Q (outcome_numbers result) again.new (standing marking.new) }
{
    let s = call_firing::shadows::shadow(plan, slice, list, marking, out);
    let end = count_of(s) as usize;
    call_firing::replays::replay(slice, &out[..end], again)
}

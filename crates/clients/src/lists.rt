// A list of transitions: where it leads, and what a slice that was checked makes of it.
ghost use Rattle.std.specs.Prelude.{◌≡◌, ◌≤◌, length};
ghost use Rattle.net.specs.Net.{fired};
ghost use Rattle.net.specs.Slice.{project};
ghost use Rattle.file.specs.Layout.{net_of, slice_of};
ghost use Rattle.promise.specs.Calls.{Accepts};
ghost use Rattle.promise.specs.Firing.{replay_refusal, replay_told, replay_answer};
ghost use Rattle.promise.specs.Together.{standing};
ghost use Rattle.replay.specs.Told.{outcome_numbers};
ghost use Rattle.clients.specs.Ended.{all_fired, Led, EndedWith};
ghost use Rattle.clients.specs.Played.{played};
ghost use Rattle.clients.specs.declared.lists.Unplayed.TheVariants.{Refused};

use checker::Verdict;
use refusals::Refusal;
use replay::Outcome;

// Why a list is not replayed on a slice: a call is refused, or the slice breaks a rule.
#[derive(Clone, Copy)]
pub enum Unplayed {
    Refused(Refusal),
    Broken(Verdict),
}

impl From<Refusal> for Unplayed {
    ghost from_gives = { λ e r. r ≡ Refused e };

    fn from(e: Refusal) -> Unplayed
        ensures { result ≡ Refused e }
    {
        Unplayed::Refused(e)
    }
}

// Whether all fired.
pub fn all_fired(o: Result<Outcome, Refusal>) -> bool
    ensures { result ≡ all_fired (outcome_numbers o) }
{
    match o {
        Ok(Outcome::Fired) => true,
        Ok(Outcome::Short(_, _, _)) => false,
        Ok(Outcome::Full(_, _, _)) => false,
        Err(_) => false,
    }
}

// Whether the list leads from the file's marking to another; the first entries of `marking` are that one then.
pub fn leads(file: &[u8], list: &[u16], marking: &mut [u64]) -> bool
    ensures { replay_refusal file.now list.now (length marking.old) ≡ 0 → Led file.now list.now marking.old result marking.new }
{
    let o = call_firing::replays::replay(file, list, marking);
    all_fired(o)
}

// The check of a slice, a replay of the list on the plan, then of its projection on the slice: accepted and fired, the last one is fired too, with equal tokens on the criterion.
pub fn on_slice(
    plan: &[u8],
    slice: &[u8],
    criterion: &[u16],
    list: &[u16],
    projected: &[u16],
    marking: &mut [u64],
    again: &mut [u64],
) -> Result<Outcome, Unplayed>
    ensures { Accepts plan.now slice.now criterion.now → replay_answer plan.now list.now (length marking.old) ≡ replay_told fired → projected.now ≡ project (slice_of slice.now) list.now → (net_of slice.now).places ≤ length again.old → EndedWith slice.now criterion.now (played result) again.new (standing marking.new) }
{
    let v = call_check::verdicts::check(plan, slice, criterion)?;
    let checker::Outcome::Accepted = v.outcome else {
        return Err(Unplayed::Broken(v));
    };
    let o = call_firing::replays::replay(plan, list, marking)?;
    let Outcome::Fired = o else {
        return Ok(o);
    };
    let again = call_firing::replays::replay(slice, projected, again)?;
    Ok(again)
}

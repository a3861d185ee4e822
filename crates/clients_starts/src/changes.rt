// A running marking carried to a new plan, and a list replayed from there.
ghost use Rattle.std.specs.Prelude.{◌≡◌, length};
ghost use Rattle.file.specs.Layout.{net_of};
ghost use Rattle.promise.specs.Transfer.{transfer_answer};
ghost use Rattle.replay.specs.Told.{outcome_numbers};
ghost use Rattle.clients_starts.specs.Continued.{Continues};

use refusals::Refusal;
use replay::Outcome;

// Carries the running marking into `start`, which has an entry for each place of the new plan, and replays the list from there. Neither 22 nor 24 then refuses the replay.
pub fn carry_on(
    old: &[u8],
    new: &[u8],
    running: &[u64],
    table: &[u16],
    list: &[u16],
    start: &mut [u64],
    marking: &mut [u64],
) -> Result<Outcome, Refusal>
    ensures refused { ¬ (transfer_answer old.now new.now running.now table.now (length start.old) ≡ 0) → (outcome_numbers result).refusal ≡ transfer_answer old.now new.now running.now table.now (length start.old) }
    ensures continues { transfer_answer old.now new.now running.now table.now (length start.old) ≡ 0 → length start.old ≡ (net_of new.now).places → Continues new.now running.now table.now start.new list.now marking.old marking.new (outcome_numbers result) }
{
    call_plans::transfers::transfer(old, new, running, table, start)?;
    call_firing::starts::replay_from(new, start, list, marking)
}

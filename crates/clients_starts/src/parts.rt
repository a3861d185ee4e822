// A list replayed in two parts, the second from the marking that the first left.
ghost use Rattle.std.specs.Prelude.{◌≡◌, true, false, ◌+◌, ◌≤◌, length};
ghost use Rattle.file.specs.Layout.{net_of};
ghost use Rattle.promise.specs.Firing.{replay_answer};
ghost use Rattle.replay.specs.Told.{ended_numbers, outcome_numbers};
ghost use Rattle.clients_starts.specs.Whole.{all_fired, Fits, AsWhole};

use refusals::Refusal;
use replay::Outcome;

// Did the whole list fire?
fn fired(o: Outcome) -> bool
    ensures { result ≡ all_fired (ended_numbers o) }
{
    match o {
        Outcome::Fired => true,
        Outcome::Short(_, _, _) => false,
        Outcome::Full(_, _, _) => false,
    }
}

// Replays the first part into `middle` and, where all of it fires, the second from there into `marking`. That is the replay of the whole list, answer and marking,
// where `middle` has an entry for each place, no entry that the first part leaves is above 4,294,967,295 (the second part is refused with 24 there),
// and both parts together have at most 65,535 entries (the whole list is refused with 11 else).
pub fn in_two(
    file: &[u8],
    first: &[u16],
    second: &[u16],
    middle: &mut [u64],
    marking: &mut [u64],
) -> Result<Outcome, Refusal>
    ensures stopped { all_fired (replay_answer file.now first.now (length middle.old)) ≡ false → outcome_numbers result ≡ replay_answer file.now first.now (length middle.old) }
    ensures whole { all_fired (replay_answer file.now first.now (length middle.old)) ≡ true → Fits (net_of file.now) middle.new → length first.now + length second.now ≤ 65535 → AsWhole file.now first.now second.now marking.old marking.new (outcome_numbers result) }
{
    let begun = call_firing::replays::replay(file, first, middle)?;
    if !fired(begun) {
        return Ok(begun);
    }
    call_firing::starts::replay_from(file, middle, second, marking)
}

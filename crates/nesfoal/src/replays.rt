// Replay of a list of transitions on a plan or a slice.
ghost use Rattle.std.specs.Prelude.{◌≡◌, length};
ghost use Rattle.promise.specs.Firing.{replay_answer, replay_marking};
ghost use Rattle.promise.specs.Starts.{replay_from_answer, replay_from_marking};
ghost use Rattle.replay.specs.Told.{outcome_numbers};
ghost use Rattle.nesfoal.specs.Replays.{replay_code};

use refusals::Refusal;
use replay::Outcome;

// Tells an answer: 0 where all fired, 100 where the list is stuck on a place that is short, 101 on one that is full, else the number of a refusal;
// the index of the firing that is not enabled, the place and the tokens missing there, or above its cap, zeros where the list is not stuck.
fn tell(o: Result<Outcome, Refusal>, index: &mut u32, place: &mut u32, amount: &mut u32) -> u32
    ensures answer { result ≡ replay_code (outcome_numbers o) }
    ensures index { index.new ≡ (outcome_numbers o).index }
    ensures place { place.new ≡ (outcome_numbers o).place }
    ensures amount { amount.new ≡ (outcome_numbers o).amount }
{
    *index = 0;
    *place = 0;
    *amount = 0;
    match o {
        Ok(Outcome::Fired) => 0,
        Ok(Outcome::Short(i, p, n)) => {
            *index = i;
            *place = p;
            *amount = n;
            100
        }
        Ok(Outcome::Full(i, p, n)) => {
            *index = i;
            *place = p;
            *amount = n;
            101
        }
        Err(e) => e.number(),
    }
}

// Replay: 0 where all fired, 100 where the list is stuck on a place that is short, 101 on one that is full, or the number of a refusal; index,
// place and the tokens missing there, or above its cap, go to the last three parameters, zeros where the list is not stuck.
pub fn nesfoal_replay(
    file: &[u8],
    list: &[u16],
    marking: &mut [u64],
    index: &mut u32,
    place: &mut u32,
    amount: &mut u32,
) -> u32
    ensures answer { result ≡ replay_code (replay_answer file.now list.now (length marking.old)) }
    ensures marking { marking.new ≡ replay_marking file.now list.now marking.old }
    ensures index { index.new ≡ (replay_answer file.now list.now (length marking.old)).index }
    ensures place { place.new ≡ (replay_answer file.now list.now (length marking.old)).place }
    ensures amount { amount.new ≡ (replay_answer file.now list.now (length marking.old)).amount }
{
    let o = call_firing::replays::replay(file, list, marking);
    tell(o, index, place, amount)
}

// The same from a lent marking.
pub fn nesfoal_replay_from(
    file: &[u8],
    start: &[u64],
    list: &[u16],
    marking: &mut [u64],
    index: &mut u32,
    place: &mut u32,
    amount: &mut u32,
) -> u32
    ensures answer { result ≡ replay_code (replay_from_answer file.now start.now list.now (length marking.old)) }
    ensures marking { marking.new ≡ replay_from_marking file.now start.now list.now marking.old }
    ensures index { index.new ≡ (replay_from_answer file.now start.now list.now (length marking.old)).index }
    ensures place { place.new ≡ (replay_from_answer file.now start.now list.now (length marking.old)).place }
    ensures amount { amount.new ≡ (replay_from_answer file.now start.now list.now (length marking.old)).amount }
{
    let o = call_firing::starts::replay_from(file, start, list, marking);
    tell(o, index, place, amount)
}

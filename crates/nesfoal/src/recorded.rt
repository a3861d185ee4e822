// The cut for one recorded run.
ghost use Rattle.std.specs.Prelude.{◌≡◌, length};
ghost use Rattle.promise.specs.RunCut.{run_answer, run_buffer, run_positions, RunsBack};
ghost use Rattle.run_cut.specs.Told.{run_numbers};
ghost use Rattle.nesfoal.specs.Recorded.{run_read};

use refusals::Refusal;
use run_cut::RunCut;

// Tells an answer: 0 or the number of a refusal, 14 where the list sticks; the file's length, the kept counts and how many positions were chosen,
// zeros where it is refused; where the list sticks, zeros where it does not.
fn tell(
    c: Result<RunCut, Refusal>,
    long: &mut u32,
    places: &mut u32,
    transitions: &mut u32,
    count: &mut u32,
    index: &mut u32,
    place: &mut u32,
    amount: &mut u32,
) -> u32
    ensures answer { result ≡ (run_numbers c).refusal }
    ensures long { long.new ≡ (run_numbers c).length }
    ensures places { places.new ≡ (run_numbers c).places }
    ensures transitions { transitions.new ≡ (run_numbers c).transitions }
    ensures count { count.new ≡ (run_numbers c).count }
    ensures index { index.new ≡ (run_numbers c).index }
    ensures place { place.new ≡ (run_numbers c).place }
    ensures amount { amount.new ≡ (run_numbers c).amount }
{
    *long = 0;
    *places = 0;
    *transitions = 0;
    *count = 0;
    *index = 0;
    *place = 0;
    *amount = 0;
    match c {
        Ok(RunCut::Written(n, p, t, k)) => {
            *long = n;
            *places = p;
            *transitions = t;
            *count = k;
            0
        }
        Ok(RunCut::Sticks(i, p, n)) => {
            *index = i;
            *place = p;
            *amount = n;
            Refusal::Stuck.number()
        }
        Err(e) => e.number(),
    }
}

// The run cut: 0 or the number of a refusal. The file's length, the kept counts and how many positions were chosen go to the next four, zeros where it is refused;
// index, place and the tokens missing there to the last three, zeros but where the number is 14.
pub fn nesfoal_run_cut(
    plan: &[u8],
    criterion: &[u16],
    list: &[u16],
    buffer: &mut [u8],
    positions: &mut [u16],
    long: &mut u32,
    places: &mut u32,
    transitions: &mut u32,
    count: &mut u32,
    index: &mut u32,
    place: &mut u32,
    amount: &mut u32,
) -> u32
    ensures answer { result ≡ (run_answer plan.now criterion.now list.now (length buffer.old) (length positions.old)).refusal }
    ensures buffer { buffer.new ≡ run_buffer plan.now criterion.now list.now buffer.old (length positions.old) }
    ensures positions { positions.new ≡ run_positions plan.now criterion.now list.now (length buffer.old) positions.old }
    ensures long { long.new ≡ (run_answer plan.now criterion.now list.now (length buffer.old) (length positions.old)).length }
    ensures places { places.new ≡ (run_answer plan.now criterion.now list.now (length buffer.old) (length positions.old)).places }
    ensures transitions { transitions.new ≡ (run_answer plan.now criterion.now list.now (length buffer.old) (length positions.old)).transitions }
    ensures count { count.new ≡ (run_answer plan.now criterion.now list.now (length buffer.old) (length positions.old)).count }
    ensures index { index.new ≡ (run_answer plan.now criterion.now list.now (length buffer.old) (length positions.old)).index }
    ensures place { place.new ≡ (run_answer plan.now criterion.now list.now (length buffer.old) (length positions.old)).place }
    ensures amount { amount.new ≡ (run_answer plan.now criterion.now list.now (length buffer.old) (length positions.old)).amount }
    ensures feeds { RunsBack plan.now criterion.now list.now (run_read result long.new places.new transitions.new count.new index.new place.new amount.new) buffer.new positions.new }
{
    let c = call_cuts::recorded::run_cut(plan, criterion, list, buffer, positions);
    tell(c, long, places, transitions, count, index, place, amount)
}

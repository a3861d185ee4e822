// The two static cuts of a plan.
ghost use Rattle.std.specs.Prelude.{◌≡◌, length};
ghost use Rattle.promise.specs.Calls.{safety_answer, safety_buffer, branching_answer, branching_buffer, Accepts};
ghost use Rattle.promise.specs.Exactness.{WritesExact};
ghost use Rattle.promise.specs.Starts.{net_at, safety_from_answer, safety_from_buffer, branching_from_answer, branching_from_buffer, AcceptsFrom};
ghost use Rattle.promise.specs.Promise.{WritesSmallest};
ghost use Rattle.slice.specs.Kept.{cut_numbers};
ghost use Rattle.nesfoal.specs.Cuts.{cut_read};

use refusals::Refusal;
use slice::Written;

// Tells an answer: 0 or the number of a refusal; the file's length and the kept counts, zeros where it is refused.
fn tell(c: Result<Written, Refusal>, long: &mut u32, places: &mut u32, transitions: &mut u32) -> u32
    ensures answer { result ≡ (cut_numbers c).refusal }
    ensures long { long.new ≡ (cut_numbers c).length }
    ensures places { places.new ≡ (cut_numbers c).places }
    ensures transitions { transitions.new ≡ (cut_numbers c).transitions }
{
    match c {
        Ok(w) => {
            *long = w.length;
            *places = w.places;
            *transitions = w.transitions;
            0
        }
        Err(e) => {
            *long = 0;
            *places = 0;
            *transitions = 0;
            e.number()
        }
    }
}

// The safety cut: 0 or the number of a refusal; the file's length and the kept counts go to the last three, zeros where it is refused.
pub fn nesfoal_safety(
    plan: &[u8],
    criterion: &[u16],
    buffer: &mut [u8],
    long: &mut u32,
    places: &mut u32,
    transitions: &mut u32,
) -> u32
    ensures answer { result ≡ (safety_answer plan.now criterion.now (length buffer.old)).refusal }
    ensures buffer { buffer.new ≡ safety_buffer plan.now criterion.now buffer.old }
    ensures long { long.new ≡ (safety_answer plan.now criterion.now (length buffer.old)).length }
    ensures places { places.new ≡ (safety_answer plan.now criterion.now (length buffer.old)).places }
    ensures transitions { transitions.new ≡ (safety_answer plan.now criterion.now (length buffer.old)).transitions }
    ensures smallest { WritesSmallest (λ S. Accepts plan.now S criterion.now) (cut_read result long.new places.new transitions.new) buffer.new }
{
    let c = call_cuts::cuts::safety(plan, criterion, buffer);
    tell(c, long, places, transitions)
}

// The branching cut: 0 or the number of a refusal; the file's length and the kept counts go to the last three, zeros where it is refused.
pub fn nesfoal_branching(
    plan: &[u8],
    criterion: &[u16],
    buffer: &mut [u8],
    long: &mut u32,
    places: &mut u32,
    transitions: &mut u32,
) -> u32
    ensures answer { result ≡ (branching_answer plan.now criterion.now (length buffer.old)).refusal }
    ensures buffer { buffer.new ≡ branching_buffer plan.now criterion.now buffer.old }
    ensures long { long.new ≡ (branching_answer plan.now criterion.now (length buffer.old)).length }
    ensures places { places.new ≡ (branching_answer plan.now criterion.now (length buffer.old)).places }
    ensures transitions { transitions.new ≡ (branching_answer plan.now criterion.now (length buffer.old)).transitions }
{
    let c = call_cuts::cuts::branching(plan, criterion, buffer);
    tell(c, long, places, transitions)
}

// The safety cut from a lent marking.
pub fn nesfoal_safety_from(
    plan: &[u8],
    start: &[u64],
    criterion: &[u16],
    buffer: &mut [u8],
    long: &mut u32,
    places: &mut u32,
    transitions: &mut u32,
) -> u32
    ensures answer { result ≡ (safety_from_answer plan.now start.now criterion.now (length buffer.old)).refusal }
    ensures buffer { buffer.new ≡ safety_from_buffer plan.now start.now criterion.now buffer.old }
    ensures long { long.new ≡ (safety_from_answer plan.now start.now criterion.now (length buffer.old)).length }
    ensures places { places.new ≡ (safety_from_answer plan.now start.now criterion.now (length buffer.old)).places }
    ensures transitions { transitions.new ≡ (safety_from_answer plan.now start.now criterion.now (length buffer.old)).transitions }
    ensures smallest { WritesSmallest (λ S. AcceptsFrom plan.now start.now S criterion.now) (cut_read result long.new places.new transitions.new) buffer.new }
{
    let c = call_cuts::starts::safety_from(plan, start, criterion, buffer);
    tell(c, long, places, transitions)
}

// The branching cut from a lent marking.
pub fn nesfoal_branching_from(
    plan: &[u8],
    start: &[u64],
    criterion: &[u16],
    buffer: &mut [u8],
    long: &mut u32,
    places: &mut u32,
    transitions: &mut u32,
) -> u32
    ensures answer { result ≡ (branching_from_answer plan.now start.now criterion.now (length buffer.old)).refusal }
    ensures buffer { buffer.new ≡ branching_from_buffer plan.now start.now criterion.now buffer.old }
    ensures long { long.new ≡ (branching_from_answer plan.now start.now criterion.now (length buffer.old)).length }
    ensures places { places.new ≡ (branching_from_answer plan.now start.now criterion.now (length buffer.old)).places }
    ensures transitions { transitions.new ≡ (branching_from_answer plan.now start.now criterion.now (length buffer.old)).transitions }
    ensures exact { WritesExact (λ S. AcceptsFrom plan.now start.now S criterion.now) (net_at plan.now start.now) (cut_read result long.new places.new transitions.new) buffer.new }
{
    let c = call_cuts::starts::branching_from(plan, start, criterion, buffer);
    tell(c, long, places, transitions)
}

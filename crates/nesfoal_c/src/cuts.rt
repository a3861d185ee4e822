// The two static cuts of a plan.
ghost use Rattle.std.specs.Prelude.{◌≡◌, length};
ghost use Rattle.promise.specs.Calls.{safety_answer, safety_buffer, branching_answer, branching_buffer, Accepts};
ghost use Rattle.promise.specs.Exactness.{WritesExact};
ghost use Rattle.promise.specs.Starts.{net_at, safety_from_answer, safety_from_buffer, branching_from_answer, branching_from_buffer, AcceptsFrom};
ghost use Rattle.promise.specs.Promise.{WritesSmallest};
ghost use Rattle.nesfoal.specs.Cuts.{cut_read};

// The safety cut: 0 or the number of a refusal; the file's length and the kept counts go to the last three, zeros where it is refused.
#[unsafe(no_mangle)]
pub extern "C" fn nesfoal_safety(
    plan: &[u8],
    criterion: &[u16],
    buffer: &mut [u8],
    long: &mut u32,
    places: &mut u32,
    transitions: &mut u32,
) -> u32
    ensures answer { result ≡ (safety_answer plan.now criterion.now (length buffer.old)).refusal }
    ensures buffer { buffer.new ≡ safety_buffer plan.now criterion.now buffer.old }
    ensures long { long.new ≡ (safety_answer plan.now criterion.now (length buffer.old)).length }
    ensures places { places.new ≡ (safety_answer plan.now criterion.now (length buffer.old)).places }
    ensures transitions { transitions.new ≡ (safety_answer plan.now criterion.now (length buffer.old)).transitions }
    ensures smallest { WritesSmallest (λ S. Accepts plan.now S criterion.now) (cut_read result long.new places.new transitions.new) buffer.new }
{
    nesfoal::cuts::nesfoal_safety(plan, criterion, buffer, long, places, transitions)
}

// The branching cut: 0 or the number of a refusal; the file's length and the kept counts go to the last three, zeros where it is refused.
#[unsafe(no_mangle)]
pub extern "C" fn nesfoal_branching(
    plan: &[u8],
    criterion: &[u16],
    buffer: &mut [u8],
    long: &mut u32,
    places: &mut u32,
    transitions: &mut u32,
) -> u32
    ensures answer { result ≡ (branching_answer plan.now criterion.now (length buffer.old)).refusal }
    ensures buffer { buffer.new ≡ branching_buffer plan.now criterion.now buffer.old }
    ensures long { long.new ≡ (branching_answer plan.now criterion.now (length buffer.old)).length }
    ensures places { places.new ≡ (branching_answer plan.now criterion.now (length buffer.old)).places }
    ensures transitions { transitions.new ≡ (branching_answer plan.now criterion.now (length buffer.old)).transitions }
{
    nesfoal::cuts::nesfoal_branching(plan, criterion, buffer, long, places, transitions)
}

// The safety cut from a lent marking.
#[unsafe(no_mangle)]
pub extern "C" fn nesfoal_safety_from(
    plan: &[u8],
    start: &[u64],
    criterion: &[u16],
    buffer: &mut [u8],
    long: &mut u32,
    places: &mut u32,
    transitions: &mut u32,
) -> u32
    ensures answer { result ≡ (safety_from_answer plan.now start.now criterion.now (length buffer.old)).refusal }
    ensures buffer { buffer.new ≡ safety_from_buffer plan.now start.now criterion.now buffer.old }
    ensures long { long.new ≡ (safety_from_answer plan.now start.now criterion.now (length buffer.old)).length }
    ensures places { places.new ≡ (safety_from_answer plan.now start.now criterion.now (length buffer.old)).places }
    ensures transitions { transitions.new ≡ (safety_from_answer plan.now start.now criterion.now (length buffer.old)).transitions }
    ensures smallest { WritesSmallest (λ S. AcceptsFrom plan.now start.now S criterion.now) (cut_read result long.new places.new transitions.new) buffer.new }
{
    nesfoal::cuts::nesfoal_safety_from(plan, start, criterion, buffer, long, places, transitions)
}

// The branching cut from a lent marking.
#[unsafe(no_mangle)]
pub extern "C" fn nesfoal_branching_from(
    plan: &[u8],
    start: &[u64],
    criterion: &[u16],
    buffer: &mut [u8],
    long: &mut u32,
    places: &mut u32,
    transitions: &mut u32,
) -> u32
    ensures answer { result ≡ (branching_from_answer plan.now start.now criterion.now (length buffer.old)).refusal }
    ensures buffer { buffer.new ≡ branching_from_buffer plan.now start.now criterion.now buffer.old }
    ensures long { long.new ≡ (branching_from_answer plan.now start.now criterion.now (length buffer.old)).length }
    ensures places { places.new ≡ (branching_from_answer plan.now start.now criterion.now (length buffer.old)).places }
    ensures transitions { transitions.new ≡ (branching_from_answer plan.now start.now criterion.now (length buffer.old)).transitions }
    ensures exact { WritesExact (λ S. AcceptsFrom plan.now start.now S criterion.now) (net_at plan.now start.now) (cut_read result long.new places.new transitions.new) buffer.new }
{
    nesfoal::cuts::nesfoal_branching_from(plan, start, criterion, buffer, long, places, transitions)
}

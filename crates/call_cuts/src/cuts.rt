// The two static cuts of a plan.
ghost use Rattle.std.specs.Prelude.{◌≡◌, length};
ghost use Rattle.promise.specs.Calls.{safety_answer, safety_buffer, branching_answer, branching_buffer, Accepts};
ghost use Rattle.promise.specs.Promise.{WritesSmallest};
ghost use Rattle.slice.specs.Kept.{cut_numbers};

use cut::Kind;
use file_header::Due;
use refusals::Refusal;
use slice::Written;

// The safety cut: writes the smallest slice that the check accepts for the plan and the criterion.
pub fn safety(plan: &[u8], criterion: &[u16], buffer: &mut [u8]) -> Result<Written, Refusal>
    ensures answer { cut_numbers result ≡ safety_answer plan.now criterion.now (length buffer.old) }
    ensures buffer { buffer.new ≡ safety_buffer plan.now criterion.now buffer.old }
    ensures smallest { WritesSmallest (λ S. Accepts plan.now S criterion.now) (cut_numbers result) buffer.new }
{
    let read = file::read(plan, Due::Plan);
    let Ok(h) = read else {
        return Err(read.unwrap_err());
    };
    inputs_criterion::check(criterion, h.places)?;
    let kept = cut::kept(plan, h, criterion, Kind::Safety);
    slice::write(plan, h, &kept.places, &kept.transitions, buffer)
}

// The branching cut.
pub fn branching(plan: &[u8], criterion: &[u16], buffer: &mut [u8]) -> Result<Written, Refusal>
    ensures answer { cut_numbers result ≡ branching_answer plan.now criterion.now (length buffer.old) }
    ensures buffer { buffer.new ≡ branching_buffer plan.now criterion.now buffer.old }
{
    let read = file::read(plan, Due::Plan);
    let Ok(h) = read else {
        return Err(read.unwrap_err());
    };
    inputs_criterion::check(criterion, h.places)?;
    let kept = cut::kept(plan, h, criterion, Kind::Branching);
    slice::write(plan, h, &kept.places, &kept.transitions, buffer)
}

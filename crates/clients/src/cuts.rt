// A cut, then the check of what it wrote, or of another slice.
ghost use Rattle.std.specs.Prelude.{◌≡◌, true, ◌||◌, ◌↔◌, length, ltb};
ghost use Rattle.file.specs.Layout.{slice_of};
ghost use Rattle.promise.specs.Calls.{safety_answer, branching_answer, Accepts};
ghost use Rattle.checker.specs.Answer.{numbers_of};

use checker::Verdict;
use refusals::Refusal;

// The safety cut, then the check of what it wrote: a refusal of the cut, else what the check answers, which is that it accepts.
pub fn safety_checked(plan: &[u8], criterion: &[u16], buffer: &mut [u8]) -> Result<Verdict, Refusal>
    ensures { (numbers_of result).code ≡ (safety_answer plan.now criterion.now (length buffer.old)).refusal }
{
    let c = call_cuts::cuts::safety(plan, criterion, buffer)?;
    let end = c.length as usize;
    call_check::verdicts::check(plan, &buffer[..end], criterion)
}

// The same with the branching cut.
pub fn branching_checked(
    plan: &[u8],
    criterion: &[u16],
    buffer: &mut [u8],
) -> Result<Verdict, Refusal>
    ensures { (numbers_of result).code ≡ (branching_answer plan.now criterion.now (length buffer.old)).refusal }
{
    let c = call_cuts::cuts::branching(plan, criterion, buffer)?;
    let end = c.length as usize;
    call_check::verdicts::check(plan, &buffer[..end], criterion)
}

// Whether the check accepts a slice that has so many places and transitions. It is not asked where the safety cut has more.
pub fn accepted(
    plan: &[u8],
    criterion: &[u16],
    slice: &[u8],
    places: u32,
    transitions: u32,
    buffer: &mut [u8],
) -> bool
    ensures { places ≡ (slice_of slice.now).net.places → transitions ≡ (slice_of slice.now).net.transitions → (result ≡ true) ↔ Accepts plan.now slice.now criterion.now }
{
    let cut = call_cuts::cuts::safety(plan, criterion, buffer);
    if let Ok(c) = cut {
        if places < c.places {
            return false;
        }
        if transitions < c.transitions {
            return false;
        }
    }
    let v = call_check::verdicts::check(plan, slice, criterion);
    checker::code(v) == 0
}

// The safety cut and the branching cut from a marking, and the check from the same marking.
ghost use Rattle.std.specs.Prelude.{◌≡◌, true, length};
ghost use Rattle.promise.specs.Starts.{safety_from_answer, branching_from_answer};
ghost use Rattle.clients_starts.specs.Compared.{NoSmaller};

// Is what the safety cut writes accepted? Always, where the cut is not refused.
pub fn safety(plan: &[u8], start: &[u64], criterion: &[u16], buffer: &mut [u8]) -> bool
    ensures { (safety_from_answer plan.now start.now criterion.now (length buffer.old)).refusal ≡ 0 → result ≡ true }
{
    let done = call_cuts::starts::safety_from(plan, start, criterion, buffer);
    let Ok(file) = done else {
        return false;
    };
    let end = file.length as usize;
    let verdict = call_check::starts::check_from(plan, &buffer[..end], start, criterion);
    checker::code(verdict) == 0
}

// The same of the branching cut.
pub fn branching(plan: &[u8], start: &[u64], criterion: &[u16], buffer: &mut [u8]) -> bool
    ensures { (branching_from_answer plan.now start.now criterion.now (length buffer.old)).refusal ≡ 0 → result ≡ true }
{
    let done = call_cuts::starts::branching_from(plan, start, criterion, buffer);
    let Ok(file) = done else {
        return false;
    };
    let end = file.length as usize;
    let verdict = call_check::starts::check_from(plan, &buffer[..end], start, criterion);
    checker::code(verdict) == 0
}

// Is the other slice accepted, and our cut written? Then the other has all that our cut has, so at least the counts.
pub fn no_smaller(
    plan: &[u8],
    start: &[u64],
    criterion: &[u16],
    other: &[u8],
    buffer: &mut [u8],
) -> bool
    ensures { result ≡ true → NoSmaller plan.now start.now criterion.now other.now buffer.old buffer.new }
{
    let done = call_cuts::starts::safety_from(plan, start, criterion, buffer);
    let Ok(_) = done else {
        return false;
    };
    let verdict = call_check::starts::check_from(plan, other, start, criterion);
    checker::code(verdict) == 0
}

// Whether a slice is accepted for a plan and a criterion from a lent marking, or the first rule that it breaks: rule 3 compares against that marking.
ghost use Rattle.std.specs.Prelude.{◌≡◌};
ghost use Rattle.net.specs.Guarantee.{Guarantee};
ghost use Rattle.file.specs.Layout.{slice_of};
ghost use Rattle.promise.specs.Starts.{net_at, checked_from};
ghost use Rattle.checker.specs.Answer.{numbers_of};

use checker::Verdict;
use file_header::Due;
use refusals::Refusal;

// Refused: the plan's number, then the slice's, then 22 or 24 for the start, then the criterion's. Accepted: what the checker guarantees about whole lists from that start.
pub fn check_from(
    plan: &[u8],
    slice: &[u8],
    start: &[u64],
    criterion: &[u16],
) -> Result<Verdict, Refusal>
    ensures answer { numbers_of result ≡ checked_from plan.now slice.now start.now criterion.now }
    ensures guarantee { (numbers_of result).code ≡ 0 → Guarantee (net_at plan.now start.now) (slice_of slice.now) criterion.now }
{
    let first = file::read(plan, Due::Plan);
    let Ok(p) = first else {
        return Err(first.unwrap_err());
    };
    let second = file::read(slice, Due::Slice);
    let Ok(s) = second else {
        return Err(second.unwrap_err());
    };
    inputs_starts::check(plan, p, start)?;
    inputs_criterion::check(criterion, p.places)?;
    Ok(starting::verdicts::judge(plan, p, slice, s, start, criterion))
}

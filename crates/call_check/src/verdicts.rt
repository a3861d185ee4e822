// Whether a slice is accepted for a plan and a criterion, or the first rule that it breaks.
ghost use Rattle.std.specs.Prelude.{◌≡◌};
ghost use Rattle.net.specs.Guarantee.{Guarantee};
ghost use Rattle.file.specs.Layout.{net_of, slice_of};
ghost use Rattle.file.specs.Criterion.{criterion_of};
ghost use Rattle.promise.specs.Calls.{checked, checked_bytes};
ghost use Rattle.checker.specs.Answer.{numbers_of};

use checker::Verdict;
use file_header::Due;
use refusals::Refusal;

// Refused: the plan's number, then the slice's, then the criterion's. Accepted: what the checker guarantees about whole lists.
pub fn check(plan: &[u8], slice: &[u8], criterion: &[u16]) -> Result<Verdict, Refusal>
    ensures answer { numbers_of result ≡ checked plan.now slice.now criterion.now }
    ensures guarantee { (numbers_of result).code ≡ 0 → Guarantee (net_of plan.now) (slice_of slice.now) criterion.now }
{
    let first = file::read(plan, Due::Plan);
    let Ok(p) = first else {
        return Err(first.unwrap_err());
    };
    let second = file::read(slice, Due::Slice);
    let Ok(s) = second else {
        return Err(second.unwrap_err());
    };
    inputs_criterion::check(criterion, p.places)?;
    Ok(checker::judge(plan, p, slice, s, criterion))
}

// The same with the criterion as 2 bytes a place, low byte first: 0 accepted, below 100 a refusal, 100 plus the rule otherwise.
pub fn check_bytes(plan: &[u8], slice: &[u8], q: &[u8]) -> u32
    ensures answer { result ≡ checked_bytes plan.now slice.now q.now }
    ensures guarantee { result ≡ 0 → Guarantee (net_of plan.now) (slice_of slice.now) (criterion_of q.now) }
{
    let first = file::read(plan, Due::Plan);
    let Ok(p) = first else {
        return first.unwrap_err().number();
    };
    let second = file::read(slice, Due::Slice);
    let Ok(s) = second else {
        return second.unwrap_err().number();
    };
    match inputs_criterion::check_bytes(q, p.places) {
        Ok(()) => checker::judge_bytes(plan, p, slice, s, q),
        Err(e) => e.number(),
    }
}

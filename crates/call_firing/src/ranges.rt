// From which markings of a range a list of transitions of a plan fires, and the marking that it needs.
ghost use Rattle.std.specs.Prelude.{◌≡◌, length};
ghost use Rattle.promise.specs.Range.{range_answer, range_need, TellsRange};
ghost use Rattle.range.specs.Told.{range_numbers};

use file_header::Due;
use range::Range;
use refusals::Refusal;

// The range is from the plan's marking to the upper list. The first entries of `need` get what the list needs, one for each place. Refused: the plan's
// number; 17 where a place of it has a cap; 11 or 12 for the list; 21 where the upper list has not one entry for each place, or one below the plan's
// marking; 13 where `need` has fewer.
pub fn range(plan: &[u8], list: &[u16], upper: &[u32], need: &mut [u64]) -> Result<Range, Refusal>
    ensures answer { range_numbers result ≡ range_answer plan.now list.now upper.now (length need.old) }
    ensures need { need.new ≡ range_need plan.now list.now upper.now need.old }
    ensures range { TellsRange plan.now list.now upper.now (range_numbers result) need.new }
{
    let read = file::read(plan, Due::Plan);
    let Ok(h) = read else {
        return Err(read.unwrap_err());
    };
    range::extent(plan, h, list, upper, need)
}

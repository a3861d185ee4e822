// From which markings of a range a list of transitions of a plan fires, and the marking that it needs.
ghost use Rattle.std.specs.Prelude.{◌≡◌, length};
ghost use Rattle.promise.specs.Range.{range_answer, range_need, TellsRange};
ghost use Rattle.range.specs.Told.{range_numbers};
ghost use Rattle.nesfoal.specs.Ranges.{range_code, range_read};

use range::Range;
use refusals::Refusal;

// 0 where every marking in the range fires the list, 100 where some do but not all, 101 where none does, else the number of a refusal.
fn code(a: Result<Range, Refusal>) -> u32
    ensures { result ≡ range_code (range_numbers a) }
{
    match a {
        Ok(Range::Every) => 0,
        Ok(Range::Partly) => 100,
        Ok(Range::Never) => 101,
        Err(e) => e.number(),
    }
}

// 0 where the list fires from every marking between the plan's and the upper list, 100 where from some but not all, 101 where from none, or the
// number of a refusal; what the list needs goes to the last parameter.
pub fn nesfoal_range(plan: &[u8], list: &[u16], upper: &[u32], need: &mut [u64]) -> u32
    ensures answer { result ≡ range_code (range_answer plan.now list.now upper.now (length need.old)) }
    ensures need { need.new ≡ range_need plan.now list.now upper.now need.old }
    ensures range { TellsRange plan.now list.now upper.now (range_read result) need.new }
{
    let a = call_firing::ranges::range(plan, list, upper, need);
    code(a)
}

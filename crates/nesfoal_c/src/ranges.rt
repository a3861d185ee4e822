// From which markings of a range a list of transitions of a plan fires, and the marking that it needs.
ghost use Rattle.std.specs.Prelude.{◌≡◌, length};
ghost use Rattle.promise.specs.Range.{range_answer, range_need, TellsRange};
ghost use Rattle.nesfoal.specs.Ranges.{range_code, range_read};

// 0 where the list fires from every marking between the plan's and the upper list, 100 where from some but not all, 101 where from none, or the
// number of a refusal; what the list needs goes to the last parameter.
#[unsafe(no_mangle)]
pub extern "C" fn nesfoal_range(plan: &[u8], list: &[u16], upper: &[u32], need: &mut [u64]) -> u32
    ensures answer { result ≡ range_code (range_answer plan.now list.now upper.now (length need.old)) }
    ensures need { need.new ≡ range_need plan.now list.now upper.now need.old }
    ensures range { TellsRange plan.now list.now upper.now (range_read result) need.new }
{
    nesfoal::ranges::nesfoal_range(plan, list, upper, need)
}

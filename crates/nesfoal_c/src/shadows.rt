// A run of a plan and its shadow in a slice.
ghost use Rattle.std.specs.Prelude.{◌≡◌, length, take};
ghost use Rattle.promise.specs.Shadow.{shadow_answer, shadow_marking, shadow_output, FollowedIn};
ghost use Rattle.nesfoal.specs.Replays.{replay_code};

// A run and its shadow: 0, 100 or 101 as of replay, or the number of a refusal; index, place and amount go to the next three parameters,
// zeros where the list is not stuck; the count of the shadow goes to the last, 0 where the call is refused.
#[unsafe(no_mangle)]
pub extern "C" fn nesfoal_shadow(
    plan: &[u8],
    slice: &[u8],
    list: &[u16],
    marking: &mut [u64],
    out: &mut [u16],
    index: &mut u32,
    place: &mut u32,
    amount: &mut u32,
    count: &mut u32,
) -> u32
    ensures answer { result ≡ replay_code (shadow_answer plan.now slice.now list.now (length marking.old) (length out.old)).run }
    ensures marking { marking.new ≡ shadow_marking plan.now slice.now list.now marking.old out.old }
    ensures output { out.new ≡ shadow_output plan.now slice.now list.now marking.old out.old }
    ensures index { index.new ≡ (shadow_answer plan.now slice.now list.now (length marking.old) (length out.old)).run.index }
    ensures place { place.new ≡ (shadow_answer plan.now slice.now list.now (length marking.old) (length out.old)).run.place }
    ensures amount { amount.new ≡ (shadow_answer plan.now slice.now list.now (length marking.old) (length out.old)).run.amount }
    ensures count { count.new ≡ (shadow_answer plan.now slice.now list.now (length marking.old) (length out.old)).count }
    ensures fired { result ≡ 0 → FollowedIn plan.now slice.now (take count.new out.new) marking.new }
    ensures short { result ≡ 100 → FollowedIn plan.now slice.now (take count.new out.new) marking.new }
    ensures full { result ≡ 101 → FollowedIn plan.now slice.now (take count.new out.new) marking.new }
{
    nesfoal::shadows::nesfoal_shadow(plan, slice, list, marking, out, index, place, amount, count)
}

// A run of a plan and its shadow in a slice.
ghost use Rattle.std.specs.Prelude.{◌≡◌, length, take};
ghost use Rattle.promise.specs.Shadow.{shadow_answer, shadow_marking, shadow_output, FollowedIn};
ghost use Rattle.shadow.specs.Told.{shadow_numbers};
ghost use Rattle.nesfoal.specs.Replays.{replay_code};

use refusals::Refusal;
use shadow::Shadow;

// Tells an answer: 0 where all fired, 100 where the list is stuck on a place that is short, 101 on one that is full, else the number of a refusal;
// the index of the firing that is not enabled, the place and the tokens missing there, or above its cap, zeros where the list is not stuck; and how
// many entries of the output list are written, 0 where the call is refused.
fn tell(
    s: Result<Shadow, Refusal>,
    index: &mut u32,
    place: &mut u32,
    amount: &mut u32,
    count: &mut u32,
) -> u32
    ensures answer { result ≡ replay_code (shadow_numbers s).run }
    ensures index { index.new ≡ (shadow_numbers s).run.index }
    ensures place { place.new ≡ (shadow_numbers s).run.place }
    ensures amount { amount.new ≡ (shadow_numbers s).run.amount }
    ensures count { count.new ≡ (shadow_numbers s).count }
{
    *index = 0;
    *place = 0;
    *amount = 0;
    *count = 0;
    match s {
        Ok(Shadow::Fired(c)) => {
            *count = c;
            0
        }
        Ok(Shadow::Short(i, p, n, c)) => {
            *index = i;
            *place = p;
            *amount = n;
            *count = c;
            100
        }
        Ok(Shadow::Full(i, p, n, c)) => {
            *index = i;
            *place = p;
            *amount = n;
            *count = c;
            101
        }
        Err(e) => e.number(),
    }
}

// A run and its shadow: 0, 100 or 101 as of replay, or the number of a refusal; index, place and amount go to the next three parameters,
// zeros where the list is not stuck; the count of the shadow goes to the last, 0 where the call is refused.
pub fn nesfoal_shadow(
    plan: &[u8],
    slice: &[u8],
    list: &[u16],
    marking: &mut [u64],
    out: &mut [u16],
    index: &mut u32,
    place: &mut u32,
    amount: &mut u32,
    count: &mut u32,
) -> u32
    ensures answer { result ≡ replay_code (shadow_answer plan.now slice.now list.now (length marking.old) (length out.old)).run }
    ensures marking { marking.new ≡ shadow_marking plan.now slice.now list.now marking.old out.old }
    ensures output { out.new ≡ shadow_output plan.now slice.now list.now marking.old out.old }
    ensures index { index.new ≡ (shadow_answer plan.now slice.now list.now (length marking.old) (length out.old)).run.index }
    ensures place { place.new ≡ (shadow_answer plan.now slice.now list.now (length marking.old) (length out.old)).run.place }
    ensures amount { amount.new ≡ (shadow_answer plan.now slice.now list.now (length marking.old) (length out.old)).run.amount }
    ensures count { count.new ≡ (shadow_answer plan.now slice.now list.now (length marking.old) (length out.old)).count }
    ensures fired { result ≡ 0 → FollowedIn plan.now slice.now (take count.new out.new) marking.new }
    ensures short { result ≡ 100 → FollowedIn plan.now slice.now (take count.new out.new) marking.new }
    ensures full { result ≡ 101 → FollowedIn plan.now slice.now (take count.new out.new) marking.new }
{
    let s = call_firing::shadows::shadow(plan, slice, list, marking, out);
    tell(s, index, place, amount, count)
}

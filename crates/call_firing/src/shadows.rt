// A run of a plan and its shadow in a slice.
ghost use Rattle.std.specs.Prelude.{◌≡◌, false, length, take};
ghost use Rattle.promise.specs.Shadow.{shadow_answer, shadow_marking, shadow_output, FollowedIn};
ghost use Rattle.shadow.specs.Told.{shadow_numbers};

use file_header::Due;
use refusals::Refusal;
use shadow::Shadow;

// Refused: the plan's number, then the slice's; 11 or 12 for the list; 13 where the marking has fewer entries than the plan has places,
// or `out` fewer than the projection of what is fired.
pub fn shadow(
    plan: &[u8],
    slice: &[u8],
    list: &[u16],
    marking: &mut [u64],
    out: &mut [u16],
) -> Result<Shadow, Refusal>
    ensures answer { shadow_numbers result ≡ shadow_answer plan.now slice.now list.now (length marking.old) (length out.old) }
    ensures marking { marking.new ≡ shadow_marking plan.now slice.now list.now marking.old out.old }
    ensures output { out.new ≡ shadow_output plan.now slice.now list.now marking.old out.old }
    ensures followed { (shadow_numbers result).run.refused ≡ false → FollowedIn plan.now slice.now (take (shadow_numbers result).count out.new) marking.new }
{
    let first = file::read(plan, Due::Plan);
    let Ok(p) = first else {
        return Err(first.unwrap_err());
    };
    let second = file::read(slice, Due::Slice);
    let Ok(s) = second else {
        return Err(second.unwrap_err());
    };
    shadow::shadow_of(plan, p, slice, s, list, marking, out)
}

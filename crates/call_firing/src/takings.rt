// How often the inputs of a transition of a plan can be taken together from a marking.
ghost use Rattle.std.specs.Prelude.{◌≡◌, length};
ghost use Rattle.promise.specs.Together.{together_answer, together_rest, TakesLargest};
ghost use Rattle.together.specs.Told.{together_numbers};

use file_header::Due;
use refusals::Refusal;
use together::Together;

// The first entries of `rest` get what is left, one for each place. Refused: the plan's number; 12 for an unknown transition; 15 where the marking
// has not one entry for each place; 13 where `rest` has fewer.
pub fn together(
    plan: &[u8],
    transition: u32,
    marking: &[u64],
    rest: &mut [u64],
) -> Result<Together, Refusal>
    ensures answer { together_numbers result ≡ together_answer plan.now transition marking.now (length rest.old) }
    ensures rest { rest.new ≡ together_rest plan.now transition marking.now rest.old }
    ensures largest { TakesLargest plan.now transition marking.now (together_numbers result) rest.new }
{
    let read = file::read(plan, Due::Plan);
    let Ok(h) = read else {
        return Err(read.unwrap_err());
    };
    let t = transition as usize;
    together::takings(plan, h, t, marking, rest)
}

// How often the inputs of a transition of a plan can be taken together from a marking.
ghost use Rattle.std.specs.Prelude.{◌≡◌, length};
ghost use Rattle.promise.specs.Together.{together_answer, together_rest, TakesLargest};
ghost use Rattle.together.specs.Told.{together_numbers};
ghost use Rattle.nesfoal.specs.Takings.{together_code, takings_read};

use refusals::Refusal;
use together::Together;

// Tells an answer: 0 where there is a largest number, 100 where any number of times fits, else the number of a refusal; the largest number, 0 where there is none.
fn tell(a: Result<Together, Refusal>, times: &mut u64) -> u32
    ensures answer { result ≡ together_code (together_numbers a) }
    ensures times { times.new ≡ (together_numbers a).times }
{
    match a {
        Ok(Together::Times(k)) => {
            *times = k;
            0
        }
        Ok(Together::Unlimited) => {
            *times = 0;
            100
        }
        Err(e) => {
            *times = 0;
            e.number()
        }
    }
}

// 0, 100 where any number of times fits, or the number of a refusal; the largest number of times goes to the last parameter, 0 where there is none.
pub fn nesfoal_together(
    plan: &[u8],
    transition: u32,
    marking: &[u64],
    rest: &mut [u64],
    times: &mut u64,
) -> u32
    ensures answer { result ≡ together_code (together_answer plan.now transition marking.now (length rest.old)) }
    ensures rest { rest.new ≡ together_rest plan.now transition marking.now rest.old }
    ensures times { times.new ≡ (together_answer plan.now transition marking.now (length rest.old)).times }
    ensures largest { TakesLargest plan.now transition marking.now (takings_read result times.new) rest.new }
{
    let a = call_firing::takings::together(plan, transition, marking, rest);
    tell(a, times)
}

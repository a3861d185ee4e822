// As many takings as fit, then once more from what is left.
ghost use Rattle.std.specs.Prelude.{◌≡◌, false, ◌≤◌, length};
ghost use Rattle.file.specs.Layout.{net_of};
ghost use Rattle.promise.specs.Together.{together_answer};
ghost use Rattle.together.specs.Told.{together_numbers};
ghost use Rattle.clients.specs.Ended.{is_limited, Emptied};

use refusals::Refusal;
use together::Together;

// The transition number of `together`.
pub type Number = u32;

// Whether there is a largest number of takings.
pub fn is_limited(a: Result<Together, Refusal>) -> bool
    ensures { result ≡ is_limited (together_numbers a) }
{
    match a {
        Ok(Together::Times(_)) => true,
        Ok(Together::Unlimited) => false,
        Err(_) => false,
    }
}

// The second answer is 0 where there is a largest number; else the first answer is handed back.
pub fn take_twice(
    plan: &[u8],
    transition: Number,
    marking: &[u64],
    rest: &mut [u64],
    again: &mut [u64],
) -> Result<Together, Refusal>
    ensures left { (together_answer plan.now transition marking.now (length rest.old)).refused ≡ false → (together_answer plan.now transition marking.now (length rest.old)).unlimited ≡ false → Emptied plan.now transition marking.now (together_answer plan.now transition marking.now (length rest.old)).times rest.new }
    ensures none { (together_answer plan.now transition marking.now (length rest.old)).refused ≡ false → (together_answer plan.now transition marking.now (length rest.old)).unlimited ≡ false → (net_of plan.now).places ≤ length again.old → together_numbers result ≡ record { refused = false; refusal = 0; unlimited = false; times = 0 } }
{
    let first = call_firing::takings::together(plan, transition, marking, rest);
    if !is_limited(first) {
        return first;
    }
    let n = marking.len();
    call_firing::takings::together(plan, transition, &rest[..n], again)
}

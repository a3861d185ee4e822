#![tactic(auto)]

// What a program does with normal forms. Each function is proved from the contract of `call_plans:normal` alone.
ghost use Rattle.std.specs.Prelude.{◌≡◌, true, ◌≤◌, length};
ghost use Rattle.promise.specs.Firing.{replay_answer, replay_marking};
ghost use Rattle.replay.specs.Told.{outcome_numbers};
ghost use Rattle.clients_normal.specs.Same.{Tells, StartsAlike};

use refusals::Refusal;
use replay::Outcome;

// Whether two plans are one net.
#[derive(Clone, Copy, Debug, PartialEq, Eq)]
pub enum Same {
    One,
    Two,
}

// Whether the first n bytes of both are equal.
pub fn equal(a: &[u8], b: &[u8], n: usize) -> bool
    requires n_in_bounds { n ≤ length a.now }
    requires n_in_bounds_2 { n ≤ length b.now }
    ensures { StartsAlike n a.now b.now result }
{
    a[..n] == b[..n]
}

// Two plans are one net exactly if their normal forms are the same bytes. Refused where a plan has no normal form in its buffer.
pub fn one_net(a: &[u8], b: &[u8], one: &mut [u8], two: &mut [u8]) -> Result<Same, Refusal>
    ensures { Tells a.now b.now (length one.old) (length two.old) result }
{
    let n = call_plans::forms::normal(a, one)?;
    let m = call_plans::forms::normal(b, two)?;
    if n != m {
        return Ok(Same::Two);
    }
    let end = n as usize;
    if equal(one, two, end) {
        return Ok(Same::One);
    }
    Ok(Same::Two)
}

// Normalises a plan, then what that wrote: the second file is the first, wherever there is room for it.
pub fn stays(plan: &[u8], one: &mut [u8], two: &mut [u8]) -> bool
    ensures { result ≡ true }
{
    let Ok(n) = call_plans::forms::normal(plan, one) else {
        return true;
    };
    let end = n as usize;
    if two.len() < end {
        return true;
    }
    match call_plans::forms::normal(&one[..end], two) {
        Err(_) => false,
        Ok(m) => {
            if m != n {
                return false;
            }
            equal(one, two, end)
        }
    }
}

// A replay of the normal form, where there is one, is a replay of the plan.
pub fn replay(
    plan: &[u8],
    list: &[u16],
    buffer: &mut [u8],
    marking: &mut [u64],
) -> Result<Outcome, Refusal>
    ensures answer { outcome_numbers result ≡ replay_answer plan.now list.now (length marking.old) }
    ensures marking { marking.new ≡ replay_marking plan.now list.now marking.old }
{
    let Ok(n) = call_plans::forms::normal(plan, buffer) else {
        return call_firing::replays::replay(plan, list, marking);
    };
    let end = n as usize;
    call_firing::replays::replay(&buffer[..end], list, marking)
}

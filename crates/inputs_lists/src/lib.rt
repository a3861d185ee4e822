#![tactic(auto)]

// Lists of transitions: refusals 11 and 12.
ghost use Rattle.std.specs.Prelude.{◌≡◌, ◌≤◌, leb};
ghost use Rattle.refusals.specs.Numbers.{refusal_number};
ghost use Rattle.net.specs.Numbers.{any};
ghost use Rattle.promise.specs.Firing.{list_refusal};

use refusals::Refusal;

// Is a number of the list not below the limit? All are gone through, so that the loop can be done by vectors.
fn above(list: &[u16], limit: u16) -> bool
    ensures { result ≡ any (leb limit) list.now }
{
    let mut bad = false;
    for x in list {
        bad = bad | (limit <= *x);
    }
    bad
}

// The same, left at the first such number: quicker for a short list.
fn above_soon(list: &[u16], limit: u16) -> bool
    ensures { result ≡ any (leb limit) list.now }
{
    list.iter().any(|x| limit <= *x)
}

// The same by the quicker of the two.
fn has_unknown(list: &[u16], limit: u16) -> bool
    ensures { result ≡ any (leb limit) list.now }
{
    if list.len() < 16 {
        return above_soon(list, limit);
    }
    above(list, limit)
}

// Checks a list against the number of transitions.
pub fn check(transitions: usize, list: &[u16]) -> Result<(), Refusal>
    requires { transitions ≤ 1024 }
    ensures { refusal_number result ≡ list_refusal transitions list.now }
{
    if 65535 < list.len() {
        return Err(Refusal::List);
    }
    if has_unknown(list, transitions as u16) {
        return Err(Refusal::Transition);
    }
    Ok(())
}

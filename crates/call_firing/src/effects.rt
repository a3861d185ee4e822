// The effect of a transition on a place of a plan or a slice.
ghost use Rattle.std.specs.Prelude.{◌≡◌};
ghost use Rattle.promise.specs.Firing.{effect_answer};
ghost use Rattle.call_firing.specs.Effect.{change_numbers};

use file_header::Due;
use refusals::Refusal;

// By how much the tokens change. Refused: the file's number; 10 for an unknown place, then 12 for an unknown transition.
pub fn effect(file: &[u8], place: u32, transition: u32) -> Result<i32, Refusal>
    ensures { change_numbers result ≡ effect_answer file.now place transition }
{
    let read = file::read(file, Due::Either);
    let Ok(h) = read else {
        return Err(read.unwrap_err());
    };
    let p = place as usize;
    let t = transition as usize;
    if h.places <= p {
        return Err(Refusal::Place);
    }
    if h.transitions <= t {
        return Err(Refusal::Transition);
    }
    let by = arcs_effect::effect(file, h, p, t);
    Ok(by)
}

// The effect of a transition on a place of a plan or a slice.
ghost use Rattle.std.specs.Prelude.{◌≡◌};
ghost use Rattle.promise.specs.Firing.{effect_answer};
ghost use Rattle.call_firing.specs.Effect.{change_numbers};

use refusals::Refusal;

// Tells an answer: 0 or the number of a refusal; the effect, 0 where it is refused.
fn tell(c: Result<i32, Refusal>, to: &mut i32) -> u32
    ensures answer { result ≡ (change_numbers c).refusal }
    ensures effect { to.new ≡ (change_numbers c).effect }
{
    match c {
        Ok(n) => {
            *to = n;
            0
        }
        Err(e) => {
            *to = 0;
            e.number()
        }
    }
}

// Effect: 0 or the number of a refusal; the effect goes to `to`, 0 where it is refused.
pub fn nesfoal_effect(file: &[u8], place: u32, transition: u32, to: &mut i32) -> u32
    ensures answer { result ≡ (effect_answer file.now place transition).refusal }
    ensures effect { to.new ≡ (effect_answer file.now place transition).effect }
{
    let c = call_firing::effects::effect(file, place, transition);
    tell(c, to)
}

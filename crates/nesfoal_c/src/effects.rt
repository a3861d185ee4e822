// The effect of a transition on a place of a plan or a slice.
ghost use Rattle.std.specs.Prelude.{◌≡◌};
ghost use Rattle.promise.specs.Firing.{effect_answer};

// Effect: 0 or the number of a refusal; the effect goes to `to`, 0 where it is refused.
#[unsafe(no_mangle)]
pub extern "C" fn nesfoal_effect(file: &[u8], place: u32, transition: u32, to: &mut i32) -> u32
    ensures answer { result ≡ (effect_answer file.now place transition).refusal }
    ensures effect { to.new ≡ (effect_answer file.now place transition).effect }
{
    nesfoal::effects::nesfoal_effect(file, place, transition, to)
}

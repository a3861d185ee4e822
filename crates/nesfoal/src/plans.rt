// Plans that are written: the normal form of one, and one from a text in PNML.
ghost use Rattle.std.specs.Prelude.{◌≡◌, length};
ghost use Rattle.promise.specs.Pnml.{pnml_answer, pnml_buffer, WritesNamed};
ghost use Rattle.promise.specs.Normal.{normal_answer, normal_buffer, WritesNormal};
ghost use Rattle.plan_put.specs.Told.{file_numbers};
ghost use Rattle.nesfoal.specs.Files.{file_read};

use refusals::Refusal;

// Tells an answer: 0 or the number of a refusal; the file's length, 0 where it is refused.
fn tell(f: Result<u32, Refusal>, long: &mut u32) -> u32
    ensures answer { result ≡ (file_numbers f).refusal }
    ensures long { long.new ≡ (file_numbers f).length }
{
    match f {
        Ok(n) => {
            *long = n;
            0
        }
        Err(e) => {
            *long = 0;
            e.number()
        }
    }
}

// The normal form of a plan: 0 or the number of a refusal; the file's length goes to the last parameter, 0 where it is refused.
pub fn nesfoal_normal(plan: &[u8], buffer: &mut [u8], long: &mut u32) -> u32
    ensures answer { result ≡ (normal_answer plan.now (length buffer.old)).refusal }
    ensures buffer { buffer.new ≡ normal_buffer plan.now buffer.old }
    ensures long { long.new ≡ (normal_answer plan.now (length buffer.old)).length }
    ensures form { WritesNormal plan.now (file_read result long.new) buffer.new }
{
    let f = call_plans::forms::normal(plan, buffer);
    tell(f, long)
}

// The plan of a text in PNML: 0 or the number of a refusal; the file's length goes to the last parameter, 0 where it is refused.
pub fn nesfoal_from_pnml(text: &[u8], buffer: &mut [u8], long: &mut u32) -> u32
    ensures answer { result ≡ (pnml_answer text.now (length buffer.old)).refusal }
    ensures buffer { buffer.new ≡ pnml_buffer text.now buffer.old }
    ensures long { long.new ≡ (pnml_answer text.now (length buffer.old)).length }
    ensures named { WritesNamed text.now (file_read result long.new) buffer.new }
{
    let f = call_plans::texts::convert(text, buffer);
    tell(f, long)
}

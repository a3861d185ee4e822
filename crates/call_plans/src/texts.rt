// A plan from a text in PNML.
ghost use Rattle.std.specs.Prelude.{◌≡◌, length};
ghost use Rattle.promise.specs.Pnml.{pnml_answer, pnml_buffer, WritesNamed};
ghost use Rattle.plan_put.specs.Told.{file_numbers};

use pnml_page::of_profile;
use pnml_plan::write_plan;
use refusals::Refusal;

// Writes the plan of the net that a text names, in edition 1, without note.
// Refused: 1 above 65,536 bytes of text; 18 where it is outside the profile; 19 where an id is used twice, or an arc joins no place and transition;
// 20 where a count or a number is past its limit, a weight is 0, or there is neither place nor transition; 13 where the buffer is shorter than the file.
pub fn convert(text: &[u8], buffer: &mut [u8]) -> Result<u32, Refusal>
    ensures answer { file_numbers result ≡ pnml_answer text.now (length buffer.old) }
    ensures buffer { buffer.new ≡ pnml_buffer text.now buffer.old }
    ensures named { WritesNamed text.now (file_numbers result) buffer.new }
{
    if 65536 < text.len() {
        return Err(Refusal::Length);
    }
    if !of_profile(text) {
        return Err(Refusal::Profile);
    }
    write_plan(text, buffer)
}

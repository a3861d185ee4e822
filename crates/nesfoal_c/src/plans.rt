// Plans that are written: the normal form of one, and one from a text in PNML.
ghost use Rattle.std.specs.Prelude.{◌≡◌, length};
ghost use Rattle.promise.specs.Pnml.{pnml_answer, pnml_buffer, WritesNamed};
ghost use Rattle.promise.specs.Normal.{normal_answer, normal_buffer, WritesNormal};
ghost use Rattle.nesfoal.specs.Files.{file_read};

// The normal form of a plan: 0 or the number of a refusal; the file's length goes to the last parameter, 0 where it is refused.
#[unsafe(no_mangle)]
pub extern "C" fn nesfoal_normal(plan: &[u8], buffer: &mut [u8], long: &mut u32) -> u32
    ensures answer { result ≡ (normal_answer plan.now (length buffer.old)).refusal }
    ensures buffer { buffer.new ≡ normal_buffer plan.now buffer.old }
    ensures long { long.new ≡ (normal_answer plan.now (length buffer.old)).length }
    ensures form { WritesNormal plan.now (file_read result long.new) buffer.new }
{
    nesfoal::plans::nesfoal_normal(plan, buffer, long)
}

// The plan of a text in PNML: 0 or the number of a refusal; the file's length goes to the last parameter, 0 where it is refused.
#[unsafe(no_mangle)]
pub extern "C" fn nesfoal_from_pnml(text: &[u8], buffer: &mut [u8], long: &mut u32) -> u32
    ensures answer { result ≡ (pnml_answer text.now (length buffer.old)).refusal }
    ensures buffer { buffer.new ≡ pnml_buffer text.now buffer.old }
    ensures long { long.new ≡ (pnml_answer text.now (length buffer.old)).length }
    ensures named { WritesNamed text.now (file_read result long.new) buffer.new }
{
    nesfoal::plans::nesfoal_from_pnml(text, buffer, long)
}

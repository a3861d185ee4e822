// The normal form of a plan.
ghost use Rattle.std.specs.Prelude.{◌≡◌, length};
ghost use Rattle.promise.specs.Normal.{normal_answer, normal_buffer, WritesNormal};
ghost use Rattle.plan_put.specs.Told.{file_numbers};

use file_header::Due;
use refusals::Refusal;

// Writes the plan without note, in edition 2, its parallel arcs joined. Two plans have the same normal bytes exactly when they are the same net.
// Refused: the plan's refusal; 25 where a joined weight is above 65,535; 13 where the buffer is shorter than the file.
pub fn normal(plan: &[u8], buffer: &mut [u8]) -> Result<u32, Refusal>
    ensures answer { file_numbers result ≡ normal_answer plan.now (length buffer.old) }
    ensures buffer { buffer.new ≡ normal_buffer plan.now buffer.old }
    ensures form { WritesNormal plan.now (file_numbers result) buffer.new }
{
    let read = file::read(plan, Due::Plan);
    let Ok(h) = read else {
        return Err(read.unwrap_err());
    };
    normal::write(plan, h, buffer)
}

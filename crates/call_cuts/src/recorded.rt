// The cut for one recorded run.
ghost use Rattle.std.specs.Prelude.{◌≡◌, length};
ghost use Rattle.promise.specs.RunCut.{run_answer, run_buffer, run_positions, RunsBack};
ghost use Rattle.run_cut.specs.Told.{run_numbers};

use file_header::Due;
use refusals::Refusal;
use run_cut::RunCut;

// Writes the slice of what fed the places of the criterion in the list, and the positions of the firings that did. The slice is for that run: the check need not accept it.
// Refused: the plan's number; 17 where a place of it has a cap; 10 for the criterion; 11 or 12 for the list; 14 where the list sticks, told apart; 13 where either buffer is too short.
pub fn run_cut(
    plan: &[u8],
    criterion: &[u16],
    list: &[u16],
    buffer: &mut [u8],
    positions: &mut [u16],
) -> Result<RunCut, Refusal>
    ensures answer { run_numbers result ≡ run_answer plan.now criterion.now list.now (length buffer.old) (length positions.old) }
    ensures buffer { buffer.new ≡ run_buffer plan.now criterion.now list.now buffer.old (length positions.old) }
    ensures positions { positions.new ≡ run_positions plan.now criterion.now list.now (length buffer.old) positions.old }
    ensures feeds { RunsBack plan.now criterion.now list.now (run_numbers result) buffer.new positions.new }
{
    let read = file::read(plan, Due::Plan);
    let Ok(h) = read else {
        return Err(read.unwrap_err());
    };
    if file::has_caps(plan, h) {
        return Err(Refusal::Capped);
    }
    inputs_criterion::check(criterion, h.places)?;
    run_cut::run(plan, h, criterion, list, buffer, positions)
}

// Replay of a list of transitions on a plan or a slice, from a lent marking.
ghost use Rattle.std.specs.Prelude.{◌≡◌, length};
ghost use Rattle.promise.specs.Starts.{replay_from_answer, replay_from_marking};
ghost use Rattle.replay.specs.Told.{outcome_numbers};

use file_header::Due;
use refusals::Refusal;
use replay::Outcome;

// Refused: the file's number; 22 or 24 for the start; 11 or 12 for the list; 13 where the marking has fewer entries than the file has places.
pub fn replay_from(
    file: &[u8],
    start: &[u64],
    list: &[u16],
    marking: &mut [u64],
) -> Result<Outcome, Refusal>
    ensures answer { outcome_numbers result ≡ replay_from_answer file.now start.now list.now (length marking.old) }
    ensures marking { marking.new ≡ replay_from_marking file.now start.now list.now marking.old }
{
    let read = file::read(file, Due::Either);
    let Ok(h) = read else {
        return Err(read.unwrap_err());
    };
    inputs_starts::check(file, h, start)?;
    starting::replays::replay(file, h, start, list, marking)
}

// Replay of a list of transitions on a plan or a slice.
ghost use Rattle.std.specs.Prelude.{◌≡◌, length};
ghost use Rattle.promise.specs.Firing.{replay_answer, replay_marking};
ghost use Rattle.replay.specs.Told.{outcome_numbers};

use file_header::Due;
use refusals::Refusal;
use replay::Outcome;

// Refused: the file's number; 11 or 12 for the list; 13 where the marking has fewer entries than the file has places.
pub fn replay(file: &[u8], list: &[u16], marking: &mut [u64]) -> Result<Outcome, Refusal>
    ensures answer { outcome_numbers result ≡ replay_answer file.now list.now (length marking.old) }
    ensures marking { marking.new ≡ replay_marking file.now list.now marking.old }
{
    let read = file::read(file, Due::Either);
    let Ok(h) = read else {
        return Err(read.unwrap_err());
    };
    replay::replay(file, h, list, marking)
}

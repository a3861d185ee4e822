// Replay of a list of transitions on a plan or a slice.
ghost use Rattle.std.specs.Prelude.{◌≡◌, length};
ghost use Rattle.promise.specs.Firing.{replay_answer, replay_marking};
ghost use Rattle.promise.specs.Starts.{replay_from_answer, replay_from_marking};
ghost use Rattle.nesfoal.specs.Replays.{replay_code};

// Replay: 0 where all fired, 100 where the list is stuck on a place that is short, 101 on one that is full, or the number of a refusal; index,
// place and the tokens missing there, or above its cap, go to the last three parameters, zeros where the list is not stuck.
#[unsafe(no_mangle)]
pub extern "C" fn nesfoal_replay(
    file: &[u8],
    list: &[u16],
    marking: &mut [u64],
    index: &mut u32,
    place: &mut u32,
    amount: &mut u32,
) -> u32
    ensures answer { result ≡ replay_code (replay_answer file.now list.now (length marking.old)) }
    ensures marking { marking.new ≡ replay_marking file.now list.now marking.old }
    ensures index { index.new ≡ (replay_answer file.now list.now (length marking.old)).index }
    ensures place { place.new ≡ (replay_answer file.now list.now (length marking.old)).place }
    ensures amount { amount.new ≡ (replay_answer file.now list.now (length marking.old)).amount }
{
    nesfoal::replays::nesfoal_replay(file, list, marking, index, place, amount)
}

// The same from a lent marking.
#[unsafe(no_mangle)]
pub extern "C" fn nesfoal_replay_from(
    file: &[u8],
    start: &[u64],
    list: &[u16],
    marking: &mut [u64],
    index: &mut u32,
    place: &mut u32,
    amount: &mut u32,
) -> u32
    ensures answer { result ≡ replay_code (replay_from_answer file.now start.now list.now (length marking.old)) }
    ensures marking { marking.new ≡ replay_from_marking file.now start.now list.now marking.old }
    ensures index { index.new ≡ (replay_from_answer file.now start.now list.now (length marking.old)).index }
    ensures place { place.new ≡ (replay_from_answer file.now start.now list.now (length marking.old)).place }
    ensures amount { amount.new ≡ (replay_from_answer file.now start.now list.now (length marking.old)).amount }
{
    nesfoal::replays::nesfoal_replay_from(file, start, list, marking, index, place, amount)
}

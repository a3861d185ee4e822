// Replay on the net of a file that was read, from a start that is not refused: the start is loaded instead of the file's markings, the rest is the plain replay.
ghost use Rattle.std.specs.Prelude.{◌≡◌, length};
ghost use Rattle.net.specs.Net.{replay as replay_of, tokens};
ghost use Rattle.file.specs.Layout.{net_from};
ghost use Rattle.file_header.specs.declared.Due.TheVariants.{Either};
ghost use Rattle.promise.specs.Calls.{written};
ghost use Rattle.promise.specs.Firing.{replay_told, replay_or};
ghost use Rattle.promise.specs.Starts.{started_from};
ghost use Rattle.inputs_starts.specs.Startable.{Startable};
ghost use Rattle.replay_steps.specs.Steps.{Underway};
ghost use Rattle.replay.specs.Told.{ended_numbers, outcome_numbers, held_back};
ghost use Rattle.starting.specs.Replays.{Replayable};

use file_header::Header;
use refusals::Refusal;
use replay::Outcome;

// Writes a list to one that is as long. By a loop, of which the compiler makes a call of memcpy: `copy_from_slice` calls memmove, which the archive does not ask of its users.
fn copy(from: &[u64], to: &mut [u64])
    requires { length to.old ≡ length from.now }
    ensures { to.new ≡ from.now }
{
    for p in 0..from.len() {
        to[p] = from[p];
    }
}

// The start, and the firings that a small net does at once from there: how many.
fn begin(file: &[u8], h: Header, start: &[u64], list: &[u16], marking: &mut [u64]) -> usize
    requires { Replayable file.now h start.now list.now marking.old }
    ensures { Underway file.now h list.now start.now marking.new result }
{
    copy(start, marking);
    replay_fast::small(file, h, list, marking)
}

// Replays a list that is not refused, with one entry of the marking for each place.
fn replay_all(file: &[u8], h: Header, start: &[u64], list: &[u16], marking: &mut [u64]) -> Outcome
    requires { Replayable file.now h start.now list.now marking.old }
    ensures result_value { ended_numbers result ≡ replay_told (replay_of (net_from (started_from file.now h start.now) h) list.now).answer }
    ensures marking_after { marking.new ≡ tokens (net_from (started_from file.now h start.now) h) (replay_of (net_from (started_from file.now h start.now) h) list.now).marking }
{
    let done = begin(file, h, start, list, marking);
    if list.len() <= done {
        return Outcome::Fired;
    }
    replay::replay_rest(file, h, list, done, marking)
}

// Replays the list from the start. The first entries of `marking` get the marking that it ends with, and the others are kept.
pub fn replay(
    file: &[u8],
    h: Header,
    start: &[u64],
    list: &[u16],
    marking: &mut [u64],
) -> Result<Outcome, Refusal>
    requires { Startable Either file.now h start.now }
    ensures answer { outcome_numbers result ≡ replay_or (held_back h list.now (length marking.old)) (replay_of (net_from (started_from file.now h start.now) h) list.now).answer }
    ensures marking { marking.new ≡ written (held_back h list.now (length marking.old)) (tokens (net_from (started_from file.now h start.now) h) (replay_of (net_from (started_from file.now h start.now) h) list.now).marking) marking.old }
{
    replay::check(h, list, marking.len())?;
    let places = h.places;
    Ok(replay_all(file, h, start, list, &mut marking[..places]))
}

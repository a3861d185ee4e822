// A running marking carried from an old plan to a new one.
ghost use Rattle.std.specs.Prelude.{◌≡◌, length};
ghost use Rattle.refusals.specs.Numbers.{refusal_number};
ghost use Rattle.promise.specs.Transfer.{transfer_answer, transfer_marking, Carried};

use file_header::Due;
use refusals::Refusal;

// Refused: the old file's refusal, then the new one's; 22 for a length or an entry of the table; 23 for a marked place with no target; 24 for a sum; 13 where the marking has fewer entries than the new plan has places.
// Only the first P entries of the marking, P the places of the new plan, are a start for the calls from a marking: a longer list handed on whole gives 22.
pub fn transfer(
    old: &[u8],
    new: &[u8],
    running: &[u64],
    table: &[u16],
    marking: &mut [u64],
) -> Result<(), Refusal>
    ensures answer { refusal_number result ≡ transfer_answer old.now new.now running.now table.now (length marking.old) }
    ensures marking { marking.new ≡ transfer_marking old.now new.now running.now table.now marking.old }
    ensures carried { refusal_number result ≡ 0 → Carried new.now running.now table.now marking.new }
{
    let first = file::read(old, Due::Plan);
    let Ok(o) = first else {
        return Err(first.unwrap_err());
    };
    let second = file::read(new, Due::Plan);
    let Ok(n) = second else {
        return Err(second.unwrap_err());
    };
    carry::carry(o.places, new, n, running, table, marking)
}

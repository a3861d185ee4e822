#![tactic(auto)]

// Projection of a list of plan transitions to a slice's own numbers.
ghost use Rattle.std.specs.Prelude.{◌≡◌, ℕ, ◌≤◌, ◌++◌, length, drop, nat_lt, slice_index};
ghost use Rattle.file.specs.Layout.{slice_from};
ghost use Rattle.file.specs.Facts.{Sound};
ghost use Rattle.projection.specs.Choice.{chosen, chosen_by, Reached, Last, Projects};

use file_header::Header;

// How many numbers a transition with this entry gets: one, or none.
fn share(entry: u16) -> usize
    ensures { (result ≡ length (chosen entry)) × (result ≤ 1) }
{
    usize::from(entry != 0)
}

// How many of the listed transitions are among the origins.
fn count(table: &[u16], list: &[u16]) -> usize
    requires { Reached table.now list.now }
    ensures { result ≡ length (chosen_by table.now list.now) }
{
    let mut n: usize = 0;
    for t in list {
        n += share(table[usize::from(*t)]);
    }
    n
}

// Are there fewer than so many entries for the projection? It is counted only where the list itself is longer.
pub fn lacks(table: &[u16], list: &[u16], room: usize) -> bool
    requires { Reached table.now list.now }
    ensures { result ≡ nat_lt room (length (chosen_by table.now list.now)) }
{
    if list.len() <= room {
        return false;
    }
    room < count(table, list)
}

// One past the last of the listed transitions that is among the origins.
fn last_chosen(table: &[u16], list: &[u16]) -> usize
    requires { Reached table.now list.now }
    ensures { Last table.now list.now result }
{
    for i in (0..list.len()).rev() {
        let t = usize::from(list[i]);
        if table[t] != 0 {
            return i + 1;
        }
    }
    0
}

// Writes the slice's number for each listed transition among the origins, in order, and counts them.
// An entry is written for each transition; one that is dropped is written over, since the last one is kept.
pub fn write(table: &[u16], list: &[u16], out: &mut [u16]) -> usize
    requires reached { Reached table.now list.now }
    requires list_in_bounds { length (chosen_by table.now list.now) ≤ length out.old }
    ensures count { result ≡ length (chosen_by table.now list.now) }
    ensures output { out.new ≡ chosen_by table.now list.now ++ drop (length (chosen_by table.now list.now)) out.old }
{
    let end = last_chosen(table, list);
    let mut n: usize = 0;
    for t in &list[..end] {
        let entry = table[usize::from(*t)];
        out[n] = entry.wrapping_sub(1);
        n += share(entry);
    }
    n
}

// Makes the table by which lists of the plan's numbers are projected to a slice, of one with zeros.
pub fn numbers(slice: &[u8], h: Header, table: &mut [u16])
    requires sound { Sound slice.now h × (h.kind ≡ 1) }
    requires by_index { (k : ℕ) → slice_index table.old k ≡ 0 }
    ensures { Projects (slice_from slice.now h) (length table.old) table.new }
{
    numbering::own_in(slice, h.originstart + 2 * h.places, h.transitions, table);
}

#![tactic(auto)]

// The plan's arcs between kept places and transitions, in one pass over the plan's arcs.
ghost use Rattle.std.specs.Prelude.{◌≡◌, ◌+◌, ◌<◌, ◌≤◌, length};
ghost use Rattle.std.proofs.lemmas.List.Edits.{sets};
ghost use Rattle.net.specs.declared.Arc.{Arc};
ghost use Rattle.file_arcs.specs.Layout.{arcs_from};
ghost use Rattle.file_writing.specs.Writing.{arc_bytes, arcs_bytes};
ghost use Rattle.slice_arcs.specs.Between.{renumbered, kept_arc, kept_arcs, Arcs, ArcsWritten};

use net::Arc;

// 1 where both the transition and the place of an arc are kept: neither entry is 0.
fn one_if_kept(transition: u16, place: u16) -> usize
    ensures { (result ≤ 1) × ((a : Arc) → result ≡ length (kept_arc transition place a)) }
{
    if transition == 0 {
        return 0;
    }
    if place == 0 {
        return 0;
    }
    1
}

// How many of the plan's arcs are between the kept places and transitions.
pub fn count_arcs(
    plan: &[u8],
    start: usize,
    count: usize,
    places: &[u16],
    transitions: &[u16],
) -> usize
    requires { Arcs plan.now start count places.now transitions.now }
    ensures { result ≡ length (kept_arcs places.now transitions.now (arcs_from plan.now start count)) }
{
    let mut total: usize = 0;
    for j in 0..count {
        let a = file_arcs::arc(plan, start + 8 * j);
        let t = a.transition;
        let p = a.place;
        total += one_if_kept(transitions[t], places[p]);
    }
    total
}

// Writes an arc by its new numbers, one less than the entries in 16 bits. The offset after it where it is kept, else the same offset: it is to be written over.
fn write_arc(a: Arc, transition: u16, place: u16, at: usize, buffer: &mut [u8]) -> usize
    requires direction_bound { a.direction < 256 }
    requires at_in_bounds { at + 8 ≤ length buffer.old }
    ensures value { result ≡ at + length (arcs_bytes (kept_arc transition place a)) }
    ensures buffer_after { buffer.new ≡ sets buffer.old at (arc_bytes (renumbered transition place a)) }
{
    let direction = a.direction;
    let kept = Arc {
        transition: transition as usize + 65535,
        direction,
        place: place as usize + 65535,
        weight: a.weight,
    };
    slice_put::put_arc(buffer, at, kept);
    at + 8 * one_if_kept(transition, place)
}

// Writes the arcs between the kept places and transitions; the offset after them. Eight bytes from there on may change.
pub fn write_arcs(
    plan: &[u8],
    start: usize,
    count: usize,
    places: &[u16],
    transitions: &[u16],
    first: usize,
    buffer: &mut [u8],
) -> usize
    requires arcs { Arcs plan.now start count places.now transitions.now }
    requires count_in_bounds { first + length (arcs_bytes (kept_arcs places.now transitions.now (arcs_from plan.now start count))) + 8 ≤ length buffer.old }
    ensures { ArcsWritten buffer.old first (arcs_bytes (kept_arcs places.now transitions.now (arcs_from plan.now start count))) buffer.new result }
{
    let mut at = first;
    for j in 0..count {
        let a = file_arcs::arc(plan, start + 8 * j);
        let t = a.transition;
        let p = a.place;
        at = write_arc(a, transitions[t], places[p], at, buffer);
    }
    at
}

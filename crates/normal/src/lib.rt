#![tactic(auto)]

// The normal form of a plan: its parallel arcs joined, in edition 2, without note.
ghost use Rattle.std.specs.Prelude.{◌≡◌, ◌+◌, ◌*◌, ◌≤◌, length};
ghost use Rattle.std.proofs.lemmas.List.Edits.{sets};
ghost use Rattle.net.specs.Normal.{joined, normal_of};
ghost use Rattle.file.specs.Facts.{Sound};
ghost use Rattle.file.specs.Layout.{net_from};
ghost use Rattle.file_writing.specs.Writing.{places_bytes, arcs_bytes, plan_bytes};
ghost use Rattle.promise.specs.Calls.{written};
ghost use Rattle.promise.specs.Normal.{weights_refusal, file_answer};
ghost use Rattle.plan_put.specs.Told.{file_numbers, room_refusal, Answers};
ghost use Rattle.normal.specs.Counted.{heavy_or, lent_refusal};

use arcs_groups::group;
use file_arcs::arc;
use file_header::{CAPS, Header};
use net::Arc;
use refusals::Refusal;

// How many arcs are left once parallel ones are joined; refused where one of these weighs more than 65,535. Goes over the arcs once, group by group.
fn count(plan: &[u8], h: Header) -> Result<usize, Refusal>
    requires { Sound plan.now h }
    ensures { result ≡ heavy_or (weights_refusal (joined (net_from plan.now h).arcs)) (length (joined (net_from plan.now h).arcs)) }
{
    let mut total: usize = 0;
    let mut j: usize = 0;
    while j < h.arcs {
        let all = group(plan, h.arcstart, j, h.arcs);
        if 65535 < all.weight {
            return Err(Refusal::Weight);
        }
        total += 1;
        j = all.end;
    }
    Ok(total)
}

// Writes the places in edition 2.
fn write_places(plan: &[u8], h: Header, buffer: &mut [u8])
    requires sound { Sound plan.now h }
    requires places_in_bounds { 8 * h.places ≤ length buffer.old }
    ensures { buffer.new ≡ sets buffer.old 0 (places_bytes 2 (net_from plan.now h).marking (net_from plan.now h).cap 0 h.places) }
{
    for p in 0..h.places {
        let tokens = file::marking(plan, h, p);
        let most = file::cap(plan, h, p);
        slice_put::put_place(CAPS, p, tokens, most, buffer);
    }
}

// Writes the arcs from `start` on, each group of parallel ones as one arc of all their weights.
fn write_arcs(plan: &[u8], h: Header, start: usize, buffer: &mut [u8])
    requires sound { Sound plan.now h }
    requires h_in_bounds { start + length (arcs_bytes (joined (net_from plan.now h).arcs)) ≤ length buffer.old }
    ensures { buffer.new ≡ sets buffer.old start (arcs_bytes (joined (net_from plan.now h).arcs)) }
{
    let mut at = start;
    let mut j: usize = 0;
    while j < h.arcs {
        let all = group(plan, h.arcstart, j, h.arcs);
        let a = arc(plan, h.arcstart + 8 * j);
        let whole = Arc {
            transition: a.transition,
            direction: a.direction,
            place: a.place,
            weight: all.weight,
        };
        slice_put::put_arc(buffer, at, whole);
        at += 8;
        j = all.end;
    }
}

// Writes the file of a plan with so many arcs left, where the buffer has room for it.
fn write_parts(plan: &[u8], h: Header, arcs: usize, buffer: &mut [u8]) -> Result<u32, Refusal>
    requires sound { Sound plan.now h }
    requires arcs_value { arcs ≡ length (joined (net_from plan.now h).arcs) }
    ensures { Answers (room_refusal (length buffer.old) (plan_bytes 2 (normal_of (net_from plan.now h)))) (plan_bytes 2 (normal_of (net_from plan.now h))) buffer.old buffer.new result }
{
    let start = 8 * h.places;
    if buffer.len() < start + 8 * arcs + 16 {
        return Err(Refusal::Buffer);
    }
    write_places(plan, h, buffer);
    write_arcs(plan, h, start, buffer);
    let end = plan_put::put_end(CAPS, h.places, h.transitions, arcs, buffer);
    let bytes = end as u32;
    Ok(bytes)
}

// Writes the normal form of a plan that was read. Refused: 25 where a joined weight is above 65,535; 13 where the buffer is shorter than the file.
pub fn write(plan: &[u8], h: Header, buffer: &mut [u8]) -> Result<u32, Refusal>
    requires { Sound plan.now h }
    ensures answer { file_numbers result ≡ file_answer (lent_refusal (net_from plan.now h) (length buffer.old)) (length (plan_bytes 2 (normal_of (net_from plan.now h)))) }
    ensures buffer { buffer.new ≡ written (lent_refusal (net_from plan.now h) (length buffer.old)) (plan_bytes 2 (normal_of (net_from plan.now h))) buffer.old }
{
    let arcs = count(plan, h)?;
    write_parts(plan, h, arcs, buffer)
}

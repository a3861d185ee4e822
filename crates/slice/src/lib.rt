#![tactic(auto)]

// Writes a slice file: from the plan's bytes and the pair of kept sets.
ghost use Rattle.std.specs.Prelude.{◌≡◌, ◌<◌, ◌≤◌, length};
ghost use Rattle.std.proofs.lemmas.List.Edits.{sets};
ghost use Rattle.net.specs.Slice.{keeping};
ghost use Rattle.file.specs.Facts.{Sound};
ghost use Rattle.file.specs.Layout.{net_from};
ghost use Rattle.file_writing.specs.Writing.{slice_bytes};
ghost use Rattle.promise.specs.Calls.{cut_answer, written};
ghost use Rattle.slice.specs.Kept.{cut_numbers, kept_pair, kept_slice, room_refusal, Answers, Within};
ghost use Rattle.slice.specs.Parts.{Cleared, Listable, Lists, MembersListed, Tables};

use file_header::Header;
use refusals::Refusal;
use tables::{LARGE, MIDDLE, SMALL};

// What a cut wrote: the file's length and the number of kept places and of kept transitions.
#[derive(Clone, Copy, Debug, PartialEq, Eq)]
pub struct Written {
    pub length: u32,
    pub places: u32,
    pub transitions: u32,
}

// Writes the file: its parts one after the other.
fn write_parts(
    plan: &[u8],
    h: Header,
    ps: &[u16],
    ts: &[u16],
    places: &[u16],
    transitions: &[u16],
    buffer: &mut [u8],
) -> Result<Written, Refusal>
    requires sound { Sound plan.now h }
    requires lists { Lists h ps.now ts.now }
    requires tables { Tables h ps.now ts.now places.now transitions.now }
    requires ts_in_bounds { length (slice_bytes h.edition (keeping (net_from plan.now h) ps.now ts.now)) ≤ length buffer.old }
    ensures { Answers h.edition (keeping (net_from plan.now h) ps.now ts.now) buffer.old buffer.new result }
{
    let start = file_header::places_length(h.edition, ps.len());
    slice_parts::write_places(plan, h, ps, buffer);
    let middle = slice_arcs::write_arcs(
        plan,
        h.arcstart,
        h.arcs,
        places,
        transitions,
        start,
        buffer,
    );
    let end = middle + 2 * ps.len();
    let body = end + 2 * ts.len();
    slice_parts::write_origins(ps, middle, buffer);
    slice_parts::write_origins(ts, end, buffer);
    let arcs = (middle - start) / 8;
    slice_put::put_trailer(1, h.edition, ps.len(), ts.len(), arcs, body, buffer);
    let bytes = (body + 16) as u32;
    let kept_places = ps.len() as u32;
    let kept_transitions = ts.len() as u32;
    Ok(Written {
        length: bytes,
        places: kept_places,
        transitions: kept_transitions,
    })
}

// Writes the file where the buffer has room for it. Arcs are counted only where all of the plan's would not fit.
fn write_if_room(
    plan: &[u8],
    h: Header,
    ps: &[u16],
    ts: &[u16],
    places: &[u16],
    transitions: &[u16],
    buffer: &mut [u8],
) -> Result<Written, Refusal>
    requires sound { Sound plan.now h }
    requires lists { Lists h ps.now ts.now }
    requires tables { Tables h ps.now ts.now places.now transitions.now }
    ensures { Answers h.edition (keeping (net_from plan.now h) ps.now ts.now) buffer.old buffer.new result }
{
    let rest = file_header::places_length(h.edition, ps.len()) + 2 * ps.len() + 2 * ts.len() + 16;
    if rest + 8 * h.arcs <= buffer.len() {
        return write_parts(plan, h, ps, ts, places, transitions, buffer);
    }
    let arcs = slice_arcs::count_arcs(plan, h.arcstart, h.arcs, places, transitions);
    if buffer.len() < rest + 8 * arcs {
        return Err(Refusal::Buffer);
    }
    write_parts(plan, h, ps, ts, places, transitions, buffer)
}

// The same, once the tables of the new numbers are made.
fn write_lists(
    plan: &[u8],
    h: Header,
    ps: &[u16],
    ts: &[u16],
    places: &mut [u16],
    transitions: &mut [u16],
    buffer: &mut [u8],
) -> Result<Written, Refusal>
    requires sound { Sound plan.now h }
    requires lists { Lists h ps.now ts.now }
    requires cleared { Cleared h.places places.old × Cleared h.transitions transitions.old }
    ensures { Answers h.edition (keeping (net_from plan.now h) ps.now ts.now) buffer.old buffer.new result }
{
    slice_members::positions(ps, places);
    slice_members::positions(ts, transitions);
    write_if_room(plan, h, ps, ts, places, transitions, buffer)
}

// Lists the members of a set, all of them below n, in rising order, and counts them.
fn list_members(words: &[u64; 16], n: usize, list: &mut [u16]) -> usize
    requires { Listable words.now n list.old }
    ensures { MembersListed words.now n list.new result }
{
    let reach = (n + 63) / 64;
    let count = sets::count(words, reach);
    slice_members::members(words, reach, list);
    count
}

// The same from the kept sets, with tables for the members of each and for their new numbers.
fn write_sets(
    plan: &[u8],
    h: Header,
    places: &[u64; 16],
    transitions: &[u64; 16],
    ps: &mut [u16],
    ts: &mut [u16],
    pn: &mut [u16],
    tn: &mut [u16],
    buffer: &mut [u8],
) -> Result<Written, Refusal>
    requires sound { Sound plan.now h }
    requires within { Within (kept_pair places.now transitions.now) h }
    requires places_in_bounds { (h.places ≤ length ps.old) × (h.transitions ≤ length ts.old) }
    requires cleared { Cleared h.places pn.old × Cleared h.transitions tn.old }
    ensures { Answers h.edition (kept_slice plan.now h (kept_pair places.now transitions.now)) buffer.old buffer.new result }
{
    let np = list_members(places, h.places, ps);
    let nt = list_members(transitions, h.transitions, ts);
    write_lists(plan, h, &ps[..np], &ts[..nt], pn, tn, buffer)
}

// With tables for N places and transitions.
fn write_sized<const N: usize>(
    plan: &[u8],
    h: Header,
    places: &[u64; 16],
    transitions: &[u64; 16],
    buffer: &mut [u8],
) -> Result<Written, Refusal>
    requires sound { Sound plan.now h }
    requires within { Within (kept_pair places.now transitions.now) h }
    requires places_bound { (h.places ≤ N) × (h.transitions ≤ N) }
    requires size { N ≤ 1024 }
    ensures { Answers h.edition (kept_slice plan.now h (kept_pair places.now transitions.now)) buffer.old buffer.new result }
{
    let mut ps = [0u16; N];
    let mut ts = [0u16; N];
    let mut pn = [0u16; N];
    let mut tn = [0u16; N];
    write_sets(
        plan,
        h,
        places,
        transitions,
        &mut ps,
        &mut ts,
        &mut pn,
        &mut tn,
        buffer,
    )
}

// Writes the slice of a plan that has the kept places and transitions, where the buffer has room for its file.
// The two sets have one lifetime, so that they may be lent from one pair.
pub fn write<'a>(
    plan: &[u8],
    h: Header,
    places: &'a [u64; 16],
    transitions: &'a [u64; 16],
    buffer: &mut [u8],
) -> Result<Written, Refusal>
    requires sound { Sound plan.now h }
    requires within { Within (kept_pair places.now transitions.now) h }
    ensures answer { cut_numbers result ≡ cut_answer (room_refusal h.edition (length buffer.old) (kept_slice plan.now h (kept_pair places.now transitions.now))) (length (slice_bytes h.edition (kept_slice plan.now h (kept_pair places.now transitions.now)))) (kept_slice plan.now h (kept_pair places.now transitions.now)) }
    ensures buffer { buffer.new ≡ written (room_refusal h.edition (length buffer.old) (kept_slice plan.now h (kept_pair places.now transitions.now))) (slice_bytes h.edition (kept_slice plan.now h (kept_pair places.now transitions.now))) buffer.old }
{
    if h.places <= SMALL {
        if h.transitions <= SMALL {
            return write_sized::<SMALL>(plan, h, places, transitions, buffer);
        }
    }
    if h.places <= MIDDLE {
        if h.transitions <= MIDDLE {
            return write_sized::<MIDDLE>(plan, h, places, transitions, buffer);
        }
    }
    write_sized::<LARGE>(plan, h, places, transitions, buffer)
}

// A cut of a plan that was read, from a start that is not refused: the kept sets, which do not depend on a marking, and their slice written, with the start over the markings.
ghost use Rattle.std.specs.Prelude.{◌≡◌, ◌+◌, ◌≤◌, ◌<◌, eqb, length};
ghost use Rattle.std.proofs.lemmas.List.Edits.{sets};
ghost use Rattle.net.specs.Numbers.{selected};
ghost use Rattle.net.specs.Slice.{keeping};
ghost use Rattle.file_header.specs.Layout.{pick};
ghost use Rattle.file_header.specs.Facts.{Placed};
ghost use Rattle.file.specs.Layout.{net_from};
ghost use Rattle.file.specs.Facts.{Sound};
ghost use Rattle.file.specs.Criterion.{criterion_refusal};
ghost use Rattle.file_header.specs.declared.Due.TheVariants.{Plan};
ghost use Rattle.file_writing.specs.Writing.{place_bytes};
ghost use Rattle.promise.specs.Together.{standing};
ghost use Rattle.promise.specs.Starts.{starting_at, started_from};
ghost use Rattle.sets.specs.Member.{member};
ghost use Rattle.inputs_starts.specs.Startable.{Startable};
ghost use Rattle.slice.specs.Kept.{kept_pair, Within, Answers};
ghost use Rattle.starting.specs.Cuts.{given, passed_bytes, NoneKept, Cuts};

use cut::Kind;
use file_header::{CAPS, Header};
use refusals::Refusal;
use slice::Written;

// Writes what a place holds, and its cap in the edition that has caps; answers where the next place goes.
fn put_place(plan: &[u8], h: Header, p: usize, tokens: u64, at: usize, buffer: &mut [u8]) -> usize
    requires placed { Placed (length plan.now) h }
    requires p_lt_places { p < h.places }
    requires edition_in_bounds { at + pick (eqb h.edition 2) 8 4 ≤ length buffer.old }
    ensures buffer_after { buffer.new ≡ sets buffer.old at (place_bytes (eqb h.edition 2) tokens ((net_from plan.now h).cap p)) }
    ensures value { result ≡ at + pick (eqb h.edition 2) 8 4 }
{
    slice_put::put32(buffer, at, tokens as usize);
    if h.edition == CAPS {
        let most = file::cap(plan, h, p);
        slice_put::put32(buffer, at + 4, most);
        return at + 8;
    }
    at + 4
}

// Writes a place that is kept; no other.
fn put_kept(
    plan: &[u8],
    h: Header,
    places: &[u64; 16],
    p: usize,
    tokens: u64,
    at: usize,
    buffer: &mut [u8],
) -> usize
    requires placed { Placed (length plan.now) h }
    requires p_lt_places { p < h.places }
    requires p_in_bounds { at + length (given (member places.now p) (place_bytes (eqb h.edition 2) tokens ((net_from plan.now h).cap p))) ≤ length buffer.old }
    ensures buffer_after { buffer.new ≡ sets buffer.old at (given (member places.now p) (place_bytes (eqb h.edition 2) tokens ((net_from plan.now h).cap p))) }
    ensures value { result ≡ at + length (given (member places.now p) (place_bytes (eqb h.edition 2) tokens ((net_from plan.now h).cap p))) }
{
    if sets::contains(places, p) {
        return put_place(plan, h, p, tokens, at, buffer);
    }
    at
}

// A place from p on before which none from p on is kept: words without a kept place are passed over.
fn pass(places: &[u64; 16], p: usize, n: usize) -> usize
    requires { (p < n) × (n ≤ 1024) }
    ensures { (p ≤ result) × (result < n) × NoneKept places.now p result }
{
    if places[p / 64] != 0 {
        return p;
    }
    let next = (p / 64 + 1) * 64;
    if next < n {
        return next;
    }
    n - 1
}

// Writes the kept places with what they hold in the start.
fn put_start(plan: &[u8], h: Header, start: &[u64], places: &[u64; 16], buffer: &mut [u8])
    requires placed { Placed (length plan.now) h }
    requires start_len { length start.now ≡ h.places }
    requires places_in_bounds { length (passed_bytes h.edition (standing start.now) (net_from plan.now h).cap (member places.now) 0 h.places) ≤ length buffer.old }
    ensures { buffer.new ≡ sets buffer.old 0 (passed_bytes h.edition (standing start.now) (net_from plan.now h).cap (member places.now) 0 h.places) }
{
    let mut at: usize = 0;
    let mut p: usize = 0;
    // Not over a range: `pass` skips words in which no place is kept.
    while p < h.places {
        let q = pass(places, p, h.places);
        at = put_kept(plan, h, places, q, start[q], at, buffer);
        p = q + 1;
    }
}

// Writes the slice that has the kept places and transitions, where the buffer has room for its file: the plan's own, then the start over its markings.
fn write<'a>(
    plan: &[u8],
    h: Header,
    start: &[u64],
    places: &'a [u64; 16],
    transitions: &'a [u64; 16],
    buffer: &mut [u8],
) -> Result<Written, Refusal>
    requires sound { Sound plan.now h }
    requires start_len { length start.now ≡ h.places }
    requires within { Within (kept_pair places.now transitions.now) h }
    ensures { Answers h.edition (keeping (starting_at (standing start.now) (net_from plan.now h)) (selected (member places.now) 0 h.places) (selected (member transitions.now) 0 h.transitions)) buffer.old buffer.new result }
{
    let done = slice::write(plan, h, places, transitions, buffer)?;
    put_start(plan, h, start, places, buffer);
    Ok(done)
}

// The cut.
pub fn cut(
    plan: &[u8],
    h: Header,
    start: &[u64],
    criterion: &[u16],
    kind: Kind,
    buffer: &mut [u8],
) -> Result<Written, Refusal>
    requires startable { Startable Plan plan.now h start.now }
    requires criterion_value { criterion_refusal h.places criterion.now ≡ 0 }
    ensures { Cuts kind (started_from plan.now h start.now) h criterion.now buffer.old buffer.new result }
{
    let kept = cut::kept(plan, h, criterion, kind);
    write(plan, h, start, &kept.places, &kept.transitions, buffer)
}

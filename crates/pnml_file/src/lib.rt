#![tactic(auto)]

// The plan file of the net that a text in PNML names: its parts, and what refusal 20 tests.
ghost use Rattle.std.specs.Prelude.{◌≡◌, ◌+◌, ◌*◌, ◌≤◌, length};
ghost use Rattle.std.proofs.lemmas.List.Edits.{sets};
ghost use Rattle.file_writing.specs.Writing.{arcs_bytes, places_bytes};
ghost use Rattle.plan_put.specs.Told.{Answers, room_refusal};
ghost use Rattle.pnml_text.specs.Rest.{rest_at};
ghost use Rattle.pnml_page.specs.Steps.{place};
ghost use Rattle.pnml_list.specs.Listing.{Listing};
ghost use Rattle.pnml_names.specs.Tables.{entries_in};
ghost use Rattle.pnml_names.specs.declared.Which.TheVariants.{Places};
ghost use Rattle.pnml_net.specs.Read.{counts_off};
ghost use Rattle.pnml_net.specs.Named.{any_off};
ghost use Rattle.pnml_file.specs.Ready.{Ready, Sorted, arc_of, arcs_in, marking_in, read_file, unfit_but};

use net::Arc;
use pnml_page::place;
use refusals::Refusal;

// The edition of the file, in which places have no caps.
const EDITION: usize = 1;

// The marking of the place whose id stands at a position.
fn marking(text: &[u8], at: u16) -> usize
    ensures { result ≡ (place (rest_at text.now at)).number }
{
    place(text, usize::from(at)).number
}

// Is a marking past its limit?
fn marking_off(text: &[u8], places: &[u16]) -> bool
    ensures { result ≡ any_off 0 4294967295 (entries_in Places text.now places.now) }
{
    for at in places {
        if 4294967295 < marking(text, *at) {
            return true;
        }
    }
    false
}

// Is a count past its limit, or neither place nor transition there?
fn counts_off(places: usize, transitions: usize, arcs: usize) -> bool
    ensures { result ≡ counts_off places transitions arcs }
{
    (1024 < places) | (1024 < transitions) | (4096 < arcs) | ((places == 0) & (transitions == 0))
}

// Is a count or a number past its limit, where `off` says so of the weights, or neither place nor transition there?
pub fn unfit(text: &[u8], names: &[u16], places: usize, transitions: usize, off: bool) -> bool
    requires { Listing text.now names.now places transitions }
    ensures { result ≡ unfit_but text.now off }
{
    let middle = 2 + places;
    let counts = counts_off(places, transitions, names.len() - middle - transitions);
    let markings = marking_off(text, &names[2..middle]);
    counts | markings | off
}

// Writes the places.
fn write_places(text: &[u8], places: &[u16], buffer: &mut [u8])
    requires places_len_bound { length places.now ≤ 1024 }
    requires places_in_bounds { 4 * length places.now ≤ length buffer.old }
    ensures { buffer.new ≡ sets buffer.old 0 (places_bytes 1 (marking_in text.now places.now) (λ p. 0) 0 (length places.now)) }
{
    for (p, at) in places.iter().enumerate() {
        slice_put::put_place(EDITION, p, marking(text, *at), 0, buffer);
    }
}

// The arc that a number is.
fn unpacked(word: usize) -> Arc
    ensures { result ≡ arc_of word }
{
    Arc {
        transition: word / 8589934592,
        direction: word / 4294967296 % 2,
        place: word / 65536 % 65536,
        weight: word % 65536,
    }
}

// Writes the arcs from `start` on.
fn write_arcs(words: &[usize], start: usize, buffer: &mut [u8])
    requires { start + 8 * length words.now ≤ length buffer.old }
    ensures { buffer.new ≡ sets buffer.old start (arcs_bytes (arcs_in words.now)) }
{
    for (k, word) in words.iter().enumerate() {
        slice_put::put_arc(buffer, start + 8 * k, unpacked(*word));
    }
}

// Writes the file where the buffer has room for it.
fn write(
    text: &[u8],
    places: &[u16],
    transitions: usize,
    words: &[usize],
    buffer: &mut [u8],
) -> Result<u32, Refusal>
    requires { Ready text.now places.now transitions words.now }
    ensures { Answers (room_refusal (length buffer.old) (read_file text.now)) (read_file text.now) buffer.old buffer.new result }
{
    let start = 4 * places.len();
    let arcs = words.len();
    if buffer.len() < start + 8 * arcs + 16 {
        return Err(Refusal::Buffer);
    }
    write_places(text, places, buffer);
    write_arcs(words, start, buffer);
    let end = plan_put::put_end(EDITION, places.len(), transitions, arcs, buffer);
    Ok(end as u32)
}

// The same from the table of ids.
pub fn write_listed(
    text: &[u8],
    names: &[u16],
    places: usize,
    transitions: usize,
    words: &[usize],
    buffer: &mut [u8],
) -> Result<u32, Refusal>
    requires listing { Listing text.now names.now places transitions }
    requires sorted { Sorted text.now words.now }
    ensures { Answers (room_refusal (length buffer.old) (read_file text.now)) (read_file text.now) buffer.old buffer.new result }
{
    let middle = 2 + places;
    write(text, &names[2..middle], transitions, words, buffer)
}

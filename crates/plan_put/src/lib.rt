#![tactic(auto)]

// The end of a plan file of either edition. Places and arcs are put by slice_put. A call that writes a plan answers the file's length or a refusal: specs/Told.antt has its numbers.
ghost use Rattle.std.specs.Prelude.{◌≡◌, ◌+◌, ◌*◌, ◌<◌, ◌≤◌, length};
ghost use Rattle.std.proofs.lemmas.List.Edits.{sets};
ghost use Rattle.file_header.specs.Layout.{places_length};
ghost use Rattle.file_writing.specs.Writing.{trailer_bytes};

use file_header::places_length;

// The trailer after so many places and arcs; the file's length.
pub fn put_end(
    edition: usize,
    places: usize,
    transitions: usize,
    arcs: usize,
    s: &mut [u8],
) -> usize
    requires edition_bound { (edition ≤ 2) × (places ≤ 1024) × (arcs ≤ 4096) }
    requires arcs_in_bounds { places_length edition places + 8 * arcs + 16 ≤ length s.old }
    ensures value { result ≡ places_length edition places + 8 * arcs + 16 }
    ensures s_after { s.new ≡ sets s.old (places_length edition places + 8 * arcs) (trailer_bytes 0 edition (places_length edition places + 8 * arcs) places transitions arcs) }
{
    let body = places_length(edition, places) + 8 * arcs;
    slice_put::put_trailer(0, edition, places, transitions, arcs, body, s);
    body + 16
}

#![tactic(auto)]

// Writes numbers, places, arcs and trailers into a byte slice, low byte first.
ghost use Rattle.std.specs.Prelude.{◌≡◌, ◌+◌, ◌<◌, ◌≤◌, eqb, length};
ghost use Rattle.std.proofs.lemmas.List.Edits.{sets};
ghost use Rattle.file_words.specs.Word.{bytes16, bytes32};
ghost use Rattle.file_header.specs.Layout.{places_length};
ghost use Rattle.file_writing.specs.Writing.{place_bytes, arc_bytes, trailer_bytes};

use file_header::CAPS;
use file_header::tail::LETTERS;
use net::Arc;

// A number in 2 bytes.
pub fn put16(s: &mut [u8], at: usize, n: usize)
    requires { at + 2 ≤ length s.old }
    ensures { s.new ≡ sets s.old at (bytes16 n) }
{
    s[at] = (n % 256) as u8;
    s[at + 1] = (n / 256 % 256) as u8;
}

// A number in 4 bytes.
pub fn put32(s: &mut [u8], at: usize, n: usize)
    requires { at + 4 ≤ length s.old }
    ensures { s.new ≡ sets s.old at (bytes32 n) }
{
    put16(s, at, n);
    put16(s, at + 2, n / 65536);
}

// An arc in 8 bytes.
pub fn put_arc(s: &mut [u8], at: usize, a: Arc)
    requires at_in_bounds { at + 8 ≤ length s.old }
    requires direction_bound { a.direction < 256 }
    ensures { s.new ≡ sets s.old at (arc_bytes a) }
{
    put16(s, at, a.transition);
    put16(s, at + 2, a.direction);
    put16(s, at + 4, a.place);
    put16(s, at + 6, a.weight);
}

// Place p: its tokens; in edition 2 its cap after them.
pub fn put_place(edition: usize, p: usize, tokens: usize, most: usize, s: &mut [u8])
    requires { places_length edition (p + 1) ≤ length s.old }
    ensures { s.new ≡ sets s.old (places_length edition p) (place_bytes (eqb edition 2) tokens most) }
{
    if edition == CAPS {
        put32(s, 8 * p, tokens);
        put32(s, 8 * p + 4, most);
    } else {
        put32(s, 4 * p, tokens);
    }
}

// The trailer of a file of that kind, 0 a plan or 1 a slice, and edition, after a body of `body` bytes. The edition is the byte after the kind.
pub fn put_trailer(
    kind: usize,
    edition: usize,
    places: usize,
    transitions: usize,
    arcs: usize,
    body: usize,
    s: &mut [u8],
)
    requires kind_bound { (kind ≤ 1) × (edition ≤ 2) }
    requires body_in_bounds { body + 16 ≤ length s.old }
    ensures { s.new ≡ sets s.old body (trailer_bytes kind edition body places transitions arcs) }
{
    put32(s, body, body);
    put16(s, body + 4, places);
    put16(s, body + 6, transitions);
    put16(s, body + 8, arcs);
    put16(s, body + 10, kind + 256 * edition);
    put32(s, body + 12, LETTERS);
}

// The trailer: refusals 2 to 5, and the header.
ghost use Rattle.std.specs.Prelude.{◌≡◌, ◌+◌, ◌*◌, ◌<◌, ◌≤◌, length};
ghost use Rattle.refusals.specs.Numbers.{refusal_number};
ghost use Rattle.file_header.specs.Facts.{Counts};
ghost use Rattle.file_header.specs.Layout.{body_length, header_from, in_slice, trailer_of};
ghost use Rattle.file_header.specs.Refusal.{body_wrong, counts_wrong, kind_wrong, letters_wrong, trailer_refusal};

use crate::{Due, Header, Trailer, places_length};
use file_words::{get8, get16, get32};
use refusals::Refusal;

// The last 16 bytes.
pub fn fields(file: &[u8]) -> Trailer
    requires { 16 ≤ length file.now }
    ensures { result ≡ trailer_of file.now }
{
    let at = file.len() - 16;
    let body = get32(file, at);
    let places = get16(file, at + 4);
    let transitions = get16(file, at + 6);
    let arcs = get16(file, at + 8);
    let kind = get8(file, at + 10);
    let edition = get8(file, at + 11);
    let letters = get32(file, at + 12);
    Trailer {
        body,
        places,
        transitions,
        arcs,
        kind,
        edition,
        letters,
    }
}

fn kind_wrong(due: Due, kind: usize) -> bool
    ensures { result ≡ kind_wrong due kind }
{
    match due {
        Due::Plan => kind != 0,
        Due::Slice => kind != 1,
        Due::Either => 1 < kind,
    }
}

// n in a slice, 0 in a plan.
fn in_slice(kind: usize, n: usize) -> usize
    ensures { (result ≡ in_slice kind n) × (result ≤ n) }
{
    if kind == 0 { 0 } else { n }
}

// The body's length, by the counts.
pub fn body_length(t: Trailer) -> usize
    requires { Counts t }
    ensures { result ≡ body_length t }
{
    places_length(t.edition, t.places)
        + 8 * t.arcs
        + in_slice(t.kind, 2 * t.places + 2 * t.transitions)
}

// The four letters, low byte first.
pub const LETTERS: usize = 0x4C4C4542;

fn letters_wrong(t: Trailer) -> bool
    ensures { result ≡ letters_wrong t }
{
    (t.letters != LETTERS) | ((t.edition != 1) & (t.edition != 2))
}

fn counts_wrong(t: Trailer) -> bool
    ensures { result ≡ counts_wrong t }
{
    // most nets are small, which one test tells
    if (t.places | t.transitions | (t.arcs / 4)) < 1024 {
        return (t.places == 0) & (t.transitions == 0) & (t.kind == 0);
    }
    (1024 < t.places)
        | (1024 < t.transitions)
        | (4096 < t.arcs)
        | ((t.places == 0) & (t.transitions == 0) & (t.kind == 0))
}

fn body_wrong(t: Trailer, n: usize) -> bool
    requires { (16 ≤ n) × Counts t }
    ensures { result ≡ body_wrong n t }
{
    (t.body != body_length(t)) | (n - 16 < t.body)
}

// Checks the trailer of a file of n bytes.
pub fn check(t: Trailer, n: usize, due: Due) -> Result<(), Refusal>
    requires { 16 ≤ n }
    ensures { refusal_number result ≡ trailer_refusal due n t }
{
    if letters_wrong(t) {
        return Err(Refusal::Letters);
    }
    if kind_wrong(due, t.kind) {
        return Err(Refusal::Kind);
    }
    if counts_wrong(t) {
        return Err(Refusal::Counts);
    }
    if body_wrong(t, n) {
        return Err(Refusal::Body);
    }
    Ok(())
}

// The header of a file of n bytes with a good trailer.
pub fn header(t: Trailer, n: usize) -> Header
    requires { (n ≤ 65536) × (t.body + 16 ≤ n) × Counts t }
    ensures { result ≡ header_from n t }
{
    let markstart = n - 16 - t.body;
    let arcstart = markstart + places_length(t.edition, t.places);
    Header {
        places: t.places,
        transitions: t.transitions,
        arcs: t.arcs,
        kind: t.kind,
        edition: t.edition,
        markstart,
        arcstart,
        originstart: arcstart + 8 * t.arcs,
    }
}

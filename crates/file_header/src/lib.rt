#![tactic(auto)]

// The header of a file, by its trailer.
pub mod tail;

ghost use Rattle.std.specs.Prelude.{◌≡◌, ◌≤◌};
ghost use Rattle.file_header.specs.Layout.{places_length};

// The kind of file that a call asks for.
#[derive(Clone, Copy, Debug, PartialEq, Eq)]
pub enum Due {
    Plan,
    Slice,
    Either,
}

// The counts of a file, its kind (0 plan, 1 slice), its edition and where its parts start. Kind and edition are the numbers in the file: the definition `header_from` has them so.
#[derive(Clone, Copy, Debug, PartialEq, Eq)]
pub struct Header {
    pub places: usize,
    pub transitions: usize,
    pub arcs: usize,
    pub kind: usize,
    pub edition: usize,
    pub markstart: usize,
    pub arcstart: usize,
    pub originstart: usize,
}

// The trailer's fields, as they stand in the file, good or not. letters has the four letters, low byte first.
#[derive(Clone, Copy, Debug, PartialEq, Eq)]
pub struct Trailer {
    pub body: usize,
    pub places: usize,
    pub transitions: usize,
    pub arcs: usize,
    pub kind: usize,
    pub edition: usize,
    pub letters: usize,
}

// The edition in which places have caps.
pub const CAPS: usize = 2;

// How many bytes n places take.
pub fn places_length(edition: usize, n: usize) -> usize
    requires { n ≤ 1024 }
    ensures { (result ≡ places_length edition n) × (result ≤ 8192) }
{
    if edition == CAPS { 8 * n } else { 4 * n }
}

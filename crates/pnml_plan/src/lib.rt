#![tactic(auto)]

// The plan of a text in PNML, from the text: refusals 19, 20 and 13 in their order. Each function has the tables of its step in a frame of its own.
ghost use Rattle.std.specs.Prelude.{◌≡◌, true, ◌+◌, ◌/◌, ◌≤◌, length};
ghost use Rattle.plan_put.specs.Told.{Answers};
ghost use Rattle.pnml_index.specs.Rows.{Indexed};
ghost use Rattle.pnml_list.specs.Listing.{Listing};
ghost use Rattle.pnml_page.specs.Steps.{read_whole};
ghost use Rattle.pnml_file.specs.Ready.{read_file};
ghost use Rattle.pnml_plan.specs.Chain.{Blanks, after_ids, after_profile};

use pnml_arcs::pack;
use pnml_file::{unfit, write_listed};
use pnml_index::{SUMS, index};
use pnml_list::list;
use pnml_sort::sort;
use refusals::Refusal;

// The length of a small text, and how many ids one can have; the same for any text that is not refused. An element takes 15 bytes or more.
const SMALL_TEXT: usize = 960;

const SMALL_IDS: usize = 66;

const LARGE_IDS: usize = 4372;

// How many arcs any text can have: an arc takes 35 bytes or more.
const ARCS: usize = 2048;

// Writes the plan of a text whose ids are in an index. Refused: 19 where an arc joins no place and transition; 20 where a count or a number is past its limit.
fn write_joined(
    text: &[u8],
    names: &[u16],
    head: &[u16],
    next: &[u16],
    places: usize,
    transitions: usize,
    buffer: &mut [u8],
) -> Result<u32, Refusal>
    requires text_len_bound { length text.now ≤ 65536 }
    requires listing { Listing text.now names.now places transitions }
    requires indexed { Indexed text.now names.now head.now next.now }
    ensures { Answers (after_ids text.now (length buffer.old)) (read_file text.now) buffer.old buffer.new result }
{
    let count = names.len() - 2 - places - transitions;
    let mut words = [0usize; ARCS];
    let off = pack(text, names, head, next, places, transitions, &mut words)?;
    if unfit(text, names, places, transitions, off) {
        return Err(Refusal::Number);
    }
    sort(&mut words, count);
    write_listed(text, names, places, transitions, &words[..count], buffer)
}

// The same, once the ids are listed: puts them into an index. Refused: 19 where an id is used twice.
fn write_named(
    text: &[u8],
    names: &[u16],
    places: usize,
    transitions: usize,
    next: &mut [u16],
    buffer: &mut [u8],
) -> Result<u32, Refusal>
    requires text_len_bound { length text.now ≤ 65536 }
    requires listing { Listing text.now names.now places transitions }
    requires blanks { Blanks names.now next.old }
    ensures { Answers (after_profile text.now (length buffer.old)) (read_file text.now) buffer.old buffer.new result }
{
    let mut head = [0u16; SUMS];
    if index(text, names, &mut head, next) {
        return Err(Refusal::Id);
    }
    write_joined(text, names, &head, next, places, transitions, buffer)
}

// With tables of N ids.
fn write_sized<const N: usize>(text: &[u8], buffer: &mut [u8]) -> Result<u32, Refusal>
    requires text_len_bound { length text.now ≤ 65536 }
    requires text_value { read_whole text.now ≡ true }
    requires ids_in_bounds { 2 + length text.now / 15 ≤ N }
    requires size { N ≤ 4372 }
    ensures { Answers (after_profile text.now (length buffer.old)) (read_file text.now) buffer.old buffer.new result }
{
    let mut names = [0u16; N];
    let mut next = [0u16; N];
    let counts = list(text, &mut names);
    let n = 2 + counts.places + counts.transitions + counts.arcs;
    write_named(
        text,
        &names[..n],
        counts.places,
        counts.transitions,
        &mut next,
        buffer,
    )
}

// Writes the plan of a text of the profile. Refused: 19, 20, and 13 where the buffer is shorter than the file.
pub fn write_plan(text: &[u8], buffer: &mut [u8]) -> Result<u32, Refusal>
    requires text_len_bound { length text.now ≤ 65536 }
    requires text_value { read_whole text.now ≡ true }
    ensures { Answers (after_profile text.now (length buffer.old)) (read_file text.now) buffer.old buffer.new result }
{
    if text.len() <= SMALL_TEXT {
        return write_sized::<SMALL_IDS>(text, buffer);
    }
    write_sized::<LARGE_IDS>(text, buffer)
}

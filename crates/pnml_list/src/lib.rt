#![tactic(auto)]

// The ids of a text in PNML in one table: of the net, of the page, of the places, the transitions and the arcs, each kind in order of appearance.
ghost use Rattle.std.specs.Prelude.{◌≡◌, true, ◌+◌, ◌/◌, ◌≤◌, length};
ghost use Rattle.pnml_page.specs.Steps.{read_whole};
ghost use Rattle.pnml_list.specs.Listing.{Listed};

use pnml_names::{Which, collect};
use pnml_page::{inside, net, page};

// How many places, transitions and arcs a text has.
#[derive(Clone, Copy)]
pub struct Counts {
    pub places: usize,
    pub transitions: usize,
    pub arcs: usize,
}

// Lists the positions of the ids of a text. An element takes 15 bytes or more.
pub fn list(text: &[u8], names: &mut [u16]) -> Counts
    requires text_len_bound { length text.now ≤ 65536 }
    requires text_value { read_whole text.now ≡ true }
    requires text_in_bounds { 2 + length text.now / 15 ≤ length names.old }
    ensures { Listed text.now names.new result }
{
    let a = net(text);
    let b = page(text);
    names[0] = a as u16;
    names[1] = b as u16;
    let first = inside(text);
    let p = collect(text, first, Which::Places, names, 2);
    let t = collect(text, first, Which::Transitions, names, p);
    let n = collect(text, first, Which::Arcs, names, t);
    Counts {
        places: p - 2,
        transitions: t - p,
        arcs: n - t,
    }
}

#![tactic(auto)]

// The ids of a text in PNML: where they stand, and which of them are the same.
ghost use Rattle.std.specs.Prelude.{◌≡◌, true, ◌+◌, ◌≤◌, ◌<◌, length};
ghost use Rattle.pnml_text.specs.Rest.{rest_at};
ghost use Rattle.pnml_page.specs.Meant.{id_at, name_at};
ghost use Rattle.pnml_page.specs.Steps.{content, most};
ghost use Rattle.pnml_names.specs.Names.{entries_of, same_id};
ghost use Rattle.pnml_names.specs.Tables.{Collected, Kept, head_of, wanted_at};

use pnml_page::{Element, MOST, whole_element_at};
use pnml_text::{Run, classify, goes_on, spaces};

// Which elements are asked for.
#[derive(Clone, Copy, Debug, PartialEq, Eq)]
pub enum Which {
    Places,
    Transitions,
    Arcs,
}

// Is an element one of those?
pub fn wanted(e: Element, which: Which) -> bool
    ensures { result ≡ wanted_at which e }
{
    match which {
        Which::Places => matches!(e, Element::Place(_, _)),
        Which::Transitions => matches!(e, Element::Transition(_)),
        Which::Arcs => matches!(e, Element::Arc(_, _, _, _)),
    }
}

// The position of an element's id.
pub fn name_of(e: Element) -> usize
    ensures { result ≡ name_at e }
{
    match e {
        Element::Place(a, _) | Element::Transition(a) | Element::Arc(a, _, _, _) => a,
    }
}

// Puts a position into a table after the k that it has, where it is wanted: how many are there then.
pub fn keep(table: &mut [u16], k: usize, a: usize, kept: bool) -> usize
    requires { kept ≡ true → (k < length table.old) × (a < 65536) }
    ensures { Kept table.old k a kept table.new result }
{
    if kept {
        table[k] = a as u16;
        return k + 1;
    }
    k
}

// The positions of the ids of the elements that are asked for, in order of appearance, after the k that the table has: how many are there then.
pub fn collect(text: &[u8], at: usize, which: Which, table: &mut [u16], k: usize) -> usize
    requires text_len_bound { length text.now ≤ 65536 }
    requires at_in_bounds { k + length (entries_of which (content most (rest_at text.now at)).elements) ≤ length table.old }
    ensures { Collected text.now at which table.old k table.new result }
{
    let mut a = at;
    let mut n = k;
    for _ in 0..MOST {
        let Some(found) = whole_element_at(text, a) else {
            return n;
        };
        a = spaces(text, found.next);
        let e = found.element;
        n = keep(table, n, name_of(e), wanted(e, which));
    }
    n
}

// The character of an id at a position, where one stands there.
pub fn character(text: &[u8], at: usize) -> Option<u8>
    ensures { result ≡ head_of (id_at text.now at) }
{
    if text.len() <= at {
        return None;
    }
    let b = text[at];
    if goes_on(Run::Id, classify(b)) {
        return Some(b);
    }
    None
}

// Are the ids at two positions the same? No range bounds the loop: an id ends where no character of it stands.
pub fn same(text: &[u8], a: usize, b: usize) -> bool
    ensures { result ≡ same_id (id_at text.now a) (id_at text.now b) }
{
    let mut i = a;
    let mut j = b;
    loop {
        match (character(text, i), character(text, j)) {
            (None, None) => return true,
            (Some(x), Some(y)) if x == y => {}
            _ => return false,
        }
        i += 1;
        j += 1;
    }
}

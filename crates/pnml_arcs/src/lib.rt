#![tactic(auto)]

// The arcs of a text in PNML by the numbers of their ends: whether one joins no place and transition, whether a weight is past its limit, and each as one number.
ghost use Rattle.std.specs.Prelude.{◌≡◌, ◌||◌, ◌+◌, ◌≤◌, ltb, length};
ghost use Rattle.pnml_index.specs.Rows.{Indexed};
ghost use Rattle.pnml_list.specs.Listing.{Listing};
ghost use Rattle.pnml_names.specs.Tables.{wanted_read};
ghost use Rattle.pnml_names.specs.declared.Which.TheVariants.{Arcs, Places, Transitions};
ghost use Rattle.pnml_net.specs.Read.{ids};
ghost use Rattle.pnml_net.specs.Named.{joined};
ghost use Rattle.pnml_sort.specs.Words.{word_of};
ghost use Rattle.pnml_arcs.specs.Ends.{Lowest, Weighed, arc_in, between_at};

use net::Arc;
use pnml_index::find;
use pnml_page::arc;
use refusals::Refusal;

// The arc from the id of number i to that of number j, where it joins a place and a transition. P places and T transitions stand after two other ids.
fn between(i: usize, j: usize, places: usize, transitions: usize, weight: usize) -> Option<Arc>
    requires { places + transitions ≤ 4372 }
    ensures { arc_in result ≡ between_at places transitions i j weight }
{
    let middle = 2 + places;
    let end = middle + transitions;
    if (2 <= i) & (i < middle) & (middle <= j) & (j < end) {
        return Some(Arc {
            transition: j - middle,
            direction: 0,
            place: i - 2,
            weight,
        });
    }
    if (2 <= j) & (j < middle) & (middle <= i) & (i < end) {
        return Some(Arc {
            transition: i - middle,
            direction: 1,
            place: j - 2,
            weight,
        });
    }
    None
}

// The arc whose id stands at a position, where it joins a place and a transition.
fn join(
    text: &[u8],
    at: usize,
    names: &[u16],
    head: &[u16],
    next: &[u16],
    places: usize,
    transitions: usize,
) -> Option<Arc>
    requires listing { Listing text.now names.now places transitions }
    requires indexed { Indexed text.now names.now head.now next.now }
    ensures { arc_in result ≡ joined (ids Places text.now) (ids Transitions text.now) (wanted_read Arcs text.now at) }
{
    let ends = arc(text, at);
    let i = find(text, ends.source, names, head, next)?;
    let j = find(text, ends.target, names, head, next)?;
    between(i, j, places, transitions, ends.number)
}

// An arc as one number, in the order of arcs, with the low 16 bits of its weight.
fn packed(a: Arc) -> usize
    requires { Lowest a }
    ensures { result ≡ word_of a }
{
    65536 * (131072 * a.transition + 65536 * a.direction + a.place) + a.weight % 65536
}

// Is a weight 0, or past its limit?
fn off(weight: usize) -> bool
    ensures { result ≡ (ltb weight 1 || ltb 65535 weight) }
{
    (weight < 1) | (65535 < weight)
}

// Puts the arcs of the text into a table, in order of appearance. Is a weight off? Refused: 19 where an arc joins no place and transition.
pub fn pack(
    text: &[u8],
    names: &[u16],
    head: &[u16],
    next: &[u16],
    places: usize,
    transitions: usize,
    words: &mut [usize],
) -> Result<bool, Refusal>
    requires listing { Listing text.now names.now places transitions }
    requires indexed { Indexed text.now names.now head.now next.now }
    requires names_len_bound { length names.now ≤ 2 + places + transitions + length words.old }
    ensures { Weighed text.now words.old words.new result }
{
    let first = 2 + places + transitions;
    let mut off_limits = false;
    for (k, name) in names[first..].iter().enumerate() {
        let joined = join(
            text,
            usize::from(*name),
            names,
            head,
            next,
            places,
            transitions,
        );
        let Some(a) = joined else {
            return Err(Refusal::Id);
        };
        words[k] = packed(a);
        off_limits |= off(a.weight);
    }
    Ok(off_limits)
}

#![tactic(auto)]

// An index of the ids of a text in PNML: from an id to its number in a table, and whether an id stands there twice.
// Ids with the same sum of characters stand in one row. `head` has for each sum the last of its row, counted from 1, and `next` for each id
// the one before it in its row; 0 ends a row.
ghost use Rattle.std.specs.Prelude.{◌≡◌, false, ◌<◌, length};
ghost use Rattle.pnml_page.specs.Meant.{id_at};
ghost use Rattle.pnml_names.specs.Names.{repeats, same_id};
ghost use Rattle.pnml_names.specs.Tables.{ids_in};
ghost use Rattle.pnml_index.specs.Rows.{Blank, Indexed, Placed, Row, Sought, sum_of};

use pnml_names::character;

// How many sums there are.
pub const SUMS: usize = 2048;

// The sum of the characters of the id at a position. No range bounds the loop: the id ends where no character of it stands.
fn sum(text: &[u8], a: usize) -> usize
    ensures { (result ≡ sum_of 0 (id_at text.now a)) × (result < 2048) }
{
    let mut h: usize = 0;
    let mut i = a;
    while let Some(x) = character(text, i) {
        h = (31 * h + usize::from(x)) % SUMS;
        i += 1;
    }
    h
}

// Are the ids at two positions the same? As `pnml_names:same` says, but with 0, which is no character of an id, for none: a turn has one comparison then,
// and ids that share a row are compared in four fifths of the time.
fn alike(text: &[u8], a: usize, b: usize) -> bool
    ensures { result ≡ same_id (id_at text.now a) (id_at text.now b) }
{
    let mut i = a;
    let mut j = b;
    loop {
        let x = character(text, i).unwrap_or(0);
        let y = character(text, j).unwrap_or(0);
        if x != y {
            return false;
        }
        if x == 0 {
            return true;
        }
        i += 1;
        j += 1;
    }
}

// The number of the id at a position, along a row from an entry on, where it is in the row. The loop follows the row's links.
fn seek(text: &[u8], a: usize, names: &[u16], next: &[u16], from: usize) -> Option<usize>
    requires { Row names.now next.now from }
    ensures { Sought text.now a names.now next.now from result }
{
    let mut m = from;
    while 0 < m {
        let i = m - 1;
        if alike(text, a, usize::from(names[i])) {
            return Some(i);
        }
        m = usize::from(next[i]);
    }
    None
}

// Puts each id into its row. Is one of them there twice?
pub fn index(text: &[u8], names: &[u16], head: &mut [u16], next: &mut [u16]) -> bool
    requires { Blank names.now head.old next.old }
    ensures answer { result ≡ repeats (ids_in text.now names.now) }
    ensures index { result ≡ false → Indexed text.now names.now head.new next.new }
{
    for (k, name) in names.iter().enumerate() {
        let a = usize::from(*name);
        let h = sum(text, a);
        let last = head[h];
        if seek(text, a, names, next, usize::from(last)).is_some() {
            return true;
        }
        next[k] = last;
        head[h] = (k + 1) as u16;
    }
    false
}

// The number of the id at a position, where it is in the table.
pub fn find(text: &[u8], a: usize, names: &[u16], head: &[u16], next: &[u16]) -> Option<usize>
    requires { Indexed text.now names.now head.now next.now }
    ensures { Placed text.now a names.now result }
{
    let h = sum(text, a);
    seek(text, a, names, next, usize::from(head[h]))
}

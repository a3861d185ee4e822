#![tactic(auto)]

// The arcs of each place that lower it, and those that raise it, linked by groups of parallel arcs: from the last of them to the one before it.
ghost use Rattle.std.specs.Prelude.{◌≡◌, ℕ, ◌+◌, ◌*◌, ◌%◌, ◌<◌, ◌≤◌, eqb, length, get_or, true};
ghost use Rattle.file.specs.Facts.{Sound};
ghost use Rattle.arcs_starts.specs.Table.{choose};
ghost use Rattle.cut_rows.specs.Rows.{Rows, entry_of};
ghost use Rattle.arcs_groups.specs.Groups.{GroupEnd, Stands};
ghost use Rattle.cut_index.specs.Steps.{arc_in, Fronted, Returned, Linked, Room, ZeroBytes};

use arcs_groups::group;
use file_header::Header;
use file_words::{get16, get32};

// The start of the arcs of transition t: j where t is a new one.
fn begin(t: usize, last: usize, from: usize, j: usize) -> usize
    ensures { result ≡ choose (eqb t last) from j }
{
    if t == last { from } else { j }
}

// The entry of arc j, whose transition's arcs start with arc `from`.
fn entry(j: usize, from: usize) -> u32
    requires { (j < 4096) × (from ≤ 4096) }
    ensures { result ≡ entry_of j from }
{
    (65536 * (from + 1) + j + 1) as u32
}

// Puts the group that starts with arc j in front of the row.
fn link_arc(row: usize, j: usize, from: usize, head: &mut [u32], next: &mut [u32])
    requires { (j < 4096) × (from ≤ 4096) × (row < length head.old) × (j < length next.old) }
    ensures { Fronted row j from head.old next.old head.new next.new }
{
    next[j] = head[row];
    head[row] = entry(j, from);
}

// The group of arc j gives back to the place p, from which its transition takes: only the difference counts. Answers the arc after the group.
fn link_groups(
    file: &[u8],
    start: usize,
    arcs: usize,
    j: usize,
    from: usize,
    p: usize,
    head: &mut [u32],
    next: &mut [u32],
) -> usize
    requires { Room file.now start arcs j from p head.old next.old × (0 < get_or head.old (2 * p) 0 % 65536) }
    ensures { Returned file.now start arcs j from p (arc_in (get_or head.old (2 * p) 0)) head.old next.old head.new next.new result }
{
    let i = (head[2 * p] % 65536 - 1) as usize;
    let taken = group(file, start, i, j);
    let given = group(file, start, j, arcs);
    if given.weight < taken.weight {
        return given.end;
    }
    head[2 * p] = next[i];
    if taken.weight == given.weight {
        return given.end;
    }
    link_arc(2 * p + 1, j, from, head, next);
    given.end
}

// The same where several arcs take, and where several give back: apart, so that what the rare call needs in memory is made ready there alone.
// Two functions with one body: a single one the compiler puts into the loop, with its sums.
fn several_taken(
    file: &[u8],
    start: usize,
    arcs: usize,
    j: usize,
    from: usize,
    p: usize,
    head: &mut [u32],
    next: &mut [u32],
) -> usize
    requires { Room file.now start arcs j from p head.old next.old × (0 < get_or head.old (2 * p) 0 % 65536) }
    ensures { Returned file.now start arcs j from p (arc_in (get_or head.old (2 * p) 0)) head.old next.old head.new next.new result }
{
    link_groups(file, start, arcs, j, from, p, head, next)
}

fn several_given(
    file: &[u8],
    start: usize,
    arcs: usize,
    j: usize,
    from: usize,
    p: usize,
    head: &mut [u32],
    next: &mut [u32],
) -> usize
    requires { Room file.now start arcs j from p head.old next.old × (0 < get_or head.old (2 * p) 0 % 65536) }
    ensures { Returned file.now start arcs j from p (arc_in (get_or head.old (2 * p) 0)) head.old next.old head.new next.new result }
{
    link_groups(file, start, arcs, j, from, p, head, next)
}

// Is the arc after arc i, which takes, at another place or in the other direction? Then of the arcs up to arc j arc i is a group of its own.
fn single(file: &[u8], start: usize, i: usize, j: usize) -> bool
    requires { Stands file.now start i j × (start + 8 * j + 8 ≤ length file.now) × ZeroBytes file.now start j }
    ensures { result ≡ true → GroupEnd file.now start i j (i + 1) }
{
    let at = start + 8 * i;
    get32(file, at + 10) != get32(file, at + 2)
}

// The same; mostly both groups have one arc. Behind the last arc there are bytes too: what they are does not matter.
fn link_back(
    file: &[u8],
    start: usize,
    arcs: usize,
    j: usize,
    from: usize,
    p: usize,
    head: &mut [u32],
    next: &mut [u32],
) -> usize
    requires { Room file.now start arcs j from p head.old next.old × (0 < get_or head.old (2 * p) 0 % 65536) }
    ensures { Returned file.now start arcs j from p (arc_in (get_or head.old (2 * p) 0)) head.old next.old head.new next.new result }
{
    let i = (head[2 * p] % 65536 - 1) as usize;
    if !single(file, start, i, j) {
        return several_taken(file, start, arcs, j, from, p, head, next);
    }
    if get16(file, start + 8 * j + 12) == get16(file, start + 8 * j + 4) {
        return several_given(file, start, arcs, j, from, p, head, next);
    }
    let taken = get16(file, start + 8 * i + 6);
    let given = get16(file, start + 8 * j + 6);
    if given < taken {
        return j + 1;
    }
    head[2 * p] = next[i];
    if taken == given {
        return j + 1;
    }
    link_arc(2 * p + 1, j, from, head, next);
    j + 1
}

// Links arc j, which is at the place p, unless a parallel one is linked. Answers the arc that is next. Entries of its transition are those from `least` on.
fn link(
    file: &[u8],
    start: usize,
    arcs: usize,
    j: usize,
    from: usize,
    p: usize,
    direction: usize,
    head: &mut [u32],
    next: &mut [u32],
) -> usize
    requires { Room file.now start arcs j from p head.old next.old × (direction ≤ 1) }
    ensures { Linked file.now start arcs j from p direction head.old next.old head.new next.new result }
{
    let least = 65536 * (from + 1);
    let own = head[2 * p + direction] as usize;
    if least <= own {
        return j + 1;
    }
    let begun = head[2 * p] as usize;
    if least <= begun {
        return link_back(file, start, arcs, j, from, p, head, next);
    }
    link_arc(2 * p + direction, j, from, head, next);
    j + 1
}

// Links the arcs of every transition. The loop is over no range: `link` answers the arc that is next, which may be behind a group.
pub fn index(file: &[u8], h: Header, head: &mut [u32], next: &mut [u32])
    requires sound { Sound file.now h }
    requires places_in_bounds { (2 * h.places ≤ length head.old) × (h.arcs ≤ length next.old) }
    requires by_index { (k : ℕ) → get_or head.old k 0 ≡ 0 }
    ensures { Rows file.now h head.new next.new }
{
    let mut last: usize = 65536;
    let mut from: usize = 0;
    let mut j: usize = 0;
    while j < h.arcs {
        let a = file_arcs::arc(file, h.arcstart + 8 * j);
        let t = a.transition;
        from = begin(t, last, from, j);
        last = t;
        j = link(
            file,
            h.arcstart,
            h.arcs,
            j,
            from,
            a.place,
            a.direction,
            head,
            next,
        );
    }
}

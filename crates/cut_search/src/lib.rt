#![tactic(auto)]

// A step of the search for a cut: the lowest pending place is gone through.
ghost use Rattle.std.specs.Prelude.{◌≡◌, ◌&&◌, ℕ, ◌*◌, ◌≤◌, ◌<◌, eqb, length};
ghost use Rattle.net.specs.Net.{takes_from};
ghost use Rattle.file.specs.Layout.{net_from};
ghost use Rattle.file.specs.Facts.{Sound};
ghost use Rattle.arcs_starts.specs.Table.{Split};
ghost use Rattle.sets_pending.specs.Growing.{PlacesKept};
ghost use Rattle.arcs_column.specs.Ways.{transition_at};
ghost use Rattle.cut_rows.specs.Rows.{Last, Rows};
ghost use Rattle.cut_search.specs.Search.{Sets, needs_of, needs_place, draws_both, TransitionKept, Nexts, Row, Followed, Turned, Ready, Stepped};

use file_header::{CAPS, Header};
use net::Arc;

// Keeps the input places of the transition t, whose arcs start with arc `from`.
fn keep_inputs(
    file: &[u8],
    h: Header,
    from: usize,
    t: usize,
    marks: u64,
    places: &mut [u64; 16],
) -> u64
    requires { Sound file.now h × (t < h.transitions) × Split file.now h.arcstart h.arcs (2 * t) from × (length places.old ≡ 16) }
    ensures { PlacesKept (takes_from (net_from file.now h) t) marks (result) places.old places.new }
{
    let start = h.arcstart;
    let mut m = marks;
    for j in from..h.arcs {
        let a = file_arcs::arc(file, start + 8 * j);
        if a.transition + a.direction * 65536 != t {
            return m;
        }
        m = sets_pending::keep(places, m, a.place);
    }
    m
}

// Keeps the place of the arc a where its transition needs it.
fn keep_place(file: &[u8], h: Header, a: Arc, marks: u64, places: &mut [u64; 16]) -> u64
    requires { Sound file.now h × (a.place < h.places) × (length places.old ≡ 16) }
    ensures { PlacesKept (λ k. eqb k a.place && needs_place (net_from file.now h) a) marks (result) places.old places.new }
{
    if a.direction == 0 {
        return sets_pending::keep(places, marks, a.place);
    }
    if file::cap(file, h, a.place) == 0 {
        return marks;
    }
    sets_pending::keep(places, marks, a.place)
}

// Keeps the input places of the transition t, whose arcs start with arc `from`, and its output places that have a cap.
fn keep_needed(
    file: &[u8],
    h: Header,
    from: usize,
    t: usize,
    marks: u64,
    places: &mut [u64; 16],
) -> u64
    requires { Sound file.now h × (t < h.transitions) × Split file.now h.arcstart h.arcs (2 * t) from × (length places.old ≡ 16) }
    ensures { PlacesKept (needs_of (net_from file.now h) t) marks (result) places.old places.new }
{
    let start = h.arcstart;
    let mut m = marks;
    for j in from..h.arcs {
        let a = file_arcs::arc(file, start + 8 * j);
        if a.transition != t {
            return m;
        }
        m = keep_place(file, h, a, m, places);
    }
    m
}

// Keeps the transition whose arcs start with arc `from`, and if it is new the places that it needs. `capped` tells a file whose places have caps.
fn keep_transition(
    file: &[u8],
    h: Header,
    from: usize,
    capped: bool,
    marks: u64,
    places: &mut [u64; 16],
    transitions: &mut [u64; 16],
) -> u64
    requires sound { Sound file.now h × (from < h.arcs) × Split file.now h.arcstart h.arcs (2 * transition_at file.now h.arcstart from) from }
    requires capped_value { (capped ≡ eqb h.edition 2) × Sets places.old transitions.old }
    ensures { TransitionKept (needs_of (net_from file.now h) (transition_at file.now h.arcstart from)) (transition_at file.now h.arcstart from) marks (result) places.old transitions.old places.new transitions.new }
{
    let a = file_arcs::arc(file, h.arcstart + 8 * from);
    let t = a.transition;
    if sets::contains(transitions, t) {
        return marks;
    }
    sets::insert(transitions, t);
    if capped {
        return keep_needed(file, h, from, t, marks, places);
    }
    keep_inputs(file, h, from, t, marks, places)
}

// Keeps every transition of the row.
fn follow(
    file: &[u8],
    h: Header,
    next: &[u32],
    row: u32,
    capped: bool,
    marks: u64,
    places: &mut [u64; 16],
    transitions: &mut [u64; 16],
) -> u64
    requires { Sound file.now h × Nexts file.now h next.now × Row file.now h row × (capped ≡ eqb h.edition 2) × Sets places.old transitions.old }
    ensures { (d p : ℕ) → d ≤ 1 → Last file.now h h.arcs d p row → Followed file.now h d p marks (result) places.old transitions.old places.new transitions.new }
{
    let mut m = marks;
    let mut e = row as usize;
    while e != 0 {
        m = keep_transition(file, h, e / 65536 - 1, capped, m, places, transitions);
        e = next[e % 65536 - 1] as usize;
    }
    m
}

// Does the place p draw in what lowers it too?
fn draws_both(file: &[u8], h: Header, all: bool, both: &[u64; 16], p: usize) -> bool
    requires { Sound file.now h × (p < h.places) }
    ensures { result ≡ draws_both (net_from file.now h) all both.now p }
{
    all | sets::contains(both, p) | (0 < file::cap(file, h, p))
}

// Follows the rows of the place p that count.
fn follow_rows(
    file: &[u8],
    h: Header,
    all: bool,
    both: &[u64; 16],
    head: &[u32],
    next: &[u32],
    p: usize,
    capped: bool,
    marks: u64,
    places: &mut [u64; 16],
    transitions: &mut [u64; 16],
) -> u64
    requires { Sound file.now h × Rows file.now h head.now next.now × (p < h.places) × (capped ≡ eqb h.edition 2) × Sets places.old transitions.old }
    ensures { Turned file.now h all both.now p marks (result) places.old transitions.old places.new transitions.new }
{
    let mut m = marks;
    if draws_both(file, h, all, both, p) {
        m = follow(file, h, next, head[2 * p], capped, m, places, transitions);
    }
    follow(
        file,
        h,
        next,
        head[2 * p + 1],
        capped,
        m,
        places,
        transitions,
    )
}

// Goes through the place p: keeps every transition that it draws in. Each call has a constant for `capped`, so the loops are compiled without it and with it.
fn turn(
    file: &[u8],
    h: Header,
    all: bool,
    both: &[u64; 16],
    head: &[u32],
    next: &[u32],
    p: usize,
    marks: u64,
    places: &mut [u64; 16],
    transitions: &mut [u64; 16],
) -> u64
    requires { Sound file.now h × Rows file.now h head.now next.now × (p < h.places) × Sets places.old transitions.old }
    ensures { Turned file.now h all both.now p marks (result) places.old transitions.old places.new transitions.new }
{
    if h.edition == CAPS {
        return follow_rows(
            file,
            h,
            all,
            both,
            head,
            next,
            p,
            true,
            marks,
            places,
            transitions,
        );
    }
    follow_rows(
        file,
        h,
        all,
        both,
        head,
        next,
        p,
        false,
        marks,
        places,
        transitions,
    )
}

// Takes the lowest pending place, and goes through it. Answers the marks then: 0 where no place was pending.
pub fn step(
    file: &[u8],
    h: Header,
    all: bool,
    both: &[u64; 16],
    head: &[u32],
    next: &[u32],
    gone: &mut [u64; 16],
    marks: u64,
    places: &mut [u64; 16],
    transitions: &mut [u64; 16],
) -> u64
    requires { (Sound file.now h × Rows file.now h head.now next.now) × Ready h marks places.old transitions.old gone.old }
    ensures { Stepped file.now h all both.now (result) places.old transitions.old gone.old places.new transitions.new gone.new }
{
    let mut m = marks;
    let Some(p) = sets_pending::lowest(places, gone, &mut m) else {
        return 0;
    };
    sets::insert(gone, p);
    turn(file, h, all, both, head, next, p, m, places, transitions)
}

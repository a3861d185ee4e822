#![tactic(auto)]

// Which of the rules 4 to 10 are certainly kept? One pass over the plan's arcs, with no branch on what is kept.
//
// An arc's number has the transition in bits 0 to 15, the direction in bit 16, zeros up to 31, the place in 32 to 47 and
// the weight in 48 to 63. Entries of two tables are added to it, for its place and its transition. They put their own
// numbers, 1024 more each, in the place of the plan's, and beside the direction, in units of 2 ^ 16, these flags:
// 2 for a place of the criterion or a kept capped one, 15 for a place left out, 14 where that has a cap, 7 for a
// transition left out.
// So both ends are kept where direction and flags come to less than 4, and bit 3 of them tells an arc to look at:
// 14 and 15 are at a place left out, an input (rule 7) or a capped output (rule 9); of a transition left out, 8 gives to
// a kept place (rule 8), and 9 and 10 are at a place of the criterion or a kept capped one (rules 6 and 10).
ghost use Rattle.std.specs.Prelude.{◌≡◌, true, ◌&&◌, ℕ, ◌+◌, ◌-◌, ◌*◌, ◌/◌, ◌%◌, ◌<◌, ◌≤◌, eqb, ltb, length, get_or, pos};
ghost use Rattle.std.specs.Int.Bits.{bit_xor};
ghost use Rattle.std.specs.Int.Signed.{le_z};
ghost use Rattle.net.specs.Net.{counted};
ghost use Rattle.net.specs.Checker.{breaker, rule4};
ghost use Rattle.file_arcs.specs.Facts.{arc_of};
ghost use Rattle.file_header.specs.Facts.{Placed};
ghost use Rattle.file.specs.Facts.{Sound};
ghost use Rattle.file_arcs.specs.Layout.{arc_at};
ghost use Rattle.file.specs.Layout.{words_from, net_from, slice_from};
ghost use Rattle.file.specs.Criterion.{criterion_refusal};
ghost use Rattle.numbering.specs.Own.{Origins};
ghost use Rattle.rules_tables.specs.Agreed.{Agreed};
ghost use Rattle.check_fast.specs.Entries.{left_place, left_capped, flagged, either, bound, Numbered, Marked, Bound, Reached};
ghost use Rattle.check_fast.specs.Pass.{Ready, joined_of, kept_of, odd_of, quiet_of, due_of, Meets, Settled, Walked, Passed, Blank};

use file_arcs::{DIRECTION, PLACE, arc_of, word};
use file_header::{CAPS, Header};
use file_words::get16;

// The entries of a place and of a transition that are left out.
pub const LEFT_PLACE: usize = 1024 * PLACE + 15 * DIRECTION;

pub const LEFT_TRANSITION: usize = 1024 + 7 * DIRECTION;

// That of a place which is left out and has a cap.
const LEFT_CAPPED: usize = 1024 * PLACE + 14 * DIRECTION;

// What the entries put more in both own numbers of an arc whose ends are kept.
const RAISED: usize = 1024 * PLACE + 1024;

// How far the arcs are gone through: the plan's, the slice's own, the bits in which some differ, and the first rule in doubt, 11 where none is.
#[derive(Clone, Copy)]
pub struct Walk {
    pub arc: usize,
    pub own: usize,
    pub differs: usize,
    pub doubt: usize,
}

// The entry of each origin: 1024 units, and what takes it to its own number.
fn number(file: &[u8], start: usize, count: usize, unit: usize, table: &mut [usize])
    requires origins { Origins file.now start count }
    requires reached { Reached (words_from file.now start count) (length table.old) }
    requires unit_bound { unit ≤ 4294967296 }
    ensures { Numbered unit (words_from file.now start count) table.old table.new }
{
    for i in 0..count {
        let origin = get16(file, start + 2 * i);
        table[origin] = unit * (1024 + i - origin);
    }
}

// Is no place of the criterion left out?
fn all_kept(criterion: &[u16], places: &[usize]) -> bool
    requires { Reached criterion.now (length places.now) }
    ensures { result ≡ true → (i : ℕ) → i < length criterion.now → get_or places.now (get_or criterion.now i 0) 0 ≡ left_place → ⊥ }
{
    for place in criterion {
        if places[usize::from(*place)] == LEFT_PLACE {
            return false;
        }
    }
    true
}

// Marks the criterion's places.
fn mark(criterion: &[u16], places: &mut [usize])
    requires { Reached criterion.now (length places.old) }
    ensures { Marked criterion.now places.old places.new }
{
    for place in criterion {
        let q = usize::from(*place);
        places[q] = places[q] / 262144 * 262144 + 131072;
    }
}

// The entry v of a place that has a cap: the mark where it is kept.
fn capped(v: usize) -> usize
    ensures { result ≡ either (eqb v left_place) left_capped (flagged v) }
{
    let marked = v / 262144 * 262144 + 131072;
    if v == LEFT_PLACE { LEFT_CAPPED } else { marked }
}

// The entry v of a place with this cap. Both entries are made, so that there is no branch on which places have one.
fn bounded(v: usize, cap: usize) -> usize
    ensures { result ≡ bound cap v }
{
    let other = capped(v);
    if cap == 0 { v } else { other }
}

// Marks the capped places.
fn mark_capped(plan: &[u8], hp: Header, places: &mut [usize])
    requires placed { Placed (length plan.now) hp }
    requires places_in_bounds { hp.places ≤ length places.old }
    ensures { Bound (net_from plan.now hp) places.old places.new }
{
    if hp.edition != CAPS {
        return;
    }
    for p in 0..hp.places {
        let v = places[p];
        places[p] = bounded(v, file::cap(plan, hp, p));
    }
}

// The arc with the entries of its place and its transition added.
fn joined(w: usize, places: &[usize], transitions: &[usize]) -> usize
    requires w_in_bounds { ((arc_of w).place < length places.now) × ((arc_of w).transition < length transitions.now) }
    requires transitions_bound { joined_of w places.now transitions.now < 18446744073709551616 }
    ensures { result ≡ joined_of w places.now transitions.now }
{
    let p = w / PLACE % 65536;
    let t = w % 65536;
    w + places[p] + transitions[t]
}

// Are both ends of the arc kept?
fn kept(z: usize) -> bool
    ensures { result ≡ kept_of z }
{
    z % 4294967296 < 262144
}

// Does the arc want a closer look?
fn odd(z: usize) -> bool
    ensures { result ≡ odd_of z }
{
    z / 524288 % 2 == 1
}

// The same where the rules 6 to 10 are not in doubt already.
fn pauses(z: usize, doubt: usize) -> bool
    ensures { result ≡ (odd_of z && ltb 6 doubt) }
{
    odd(z) & (6 < doubt)
}

// Is every bit 0 but those of 1024 in both own numbers and the criterion's mark?
fn quiet(d: usize) -> bool
    ensures { result ≡ quiet_of d }
{
    (d % 1024 == 0) & (d / 2048 % 64 == 0) & (d / 262144 % 16777216 == 0) & (d / 8796093022208 == 0)
}

// n where ok, else 0.
fn chosen(ok: bool, n: usize) -> usize
    ensures { result ≡ counted ok n }
{
    if ok { n } else { 0 }
}

// Quiet where the arc is not kept, or the slice's own arc is the one due.
fn unlike(z: usize, own: usize) -> usize
    ensures { result ≡ counted (kept_of z) (bit_xor z own) }
{
    chosen(kept(z), z ^ own)
}

// 1 where the arc is kept, else 0.
fn step(z: usize) -> usize
    ensures { result ≡ counted (kept_of z) 1 }
{
    chosen(kept(z), 1)
}

// Is an effect not above 0?
fn lowers(effect: i32) -> bool
    ensures { result ≡ le_z effect (pos 0) }
{
    effect <= 0
}

// Is an effect 0?
fn balances(effect: i32) -> bool
    ensures { result ≡ (le_z effect (pos 0) && le_z (pos 0) effect) }
{
    (effect <= 0) & (0 <= effect)
}

// Does a transition left out leave the arc's place as the rules 6, 8 and 10 ask? Only asked of an arc that wants a closer look.
fn settled(
    plan: &[u8],
    hp: Header,
    slice: &[u8],
    hs: Header,
    criterion: &[u16],
    j: usize,
    places: &[usize],
    transitions: &[usize],
) -> bool
    requires ready { Ready plan.now hp slice.now hs criterion.now places.now transitions.now }
    requires j_lt_arcs { j < hp.arcs }
    ensures { result ≡ true → Settled plan.now hp slice.now hs criterion.now 11 (arc_at plan.now (hp.arcstart + 8 * j)) }
{
    let w = word(plan, hp.arcstart + 8 * j);
    let z = joined(w, places, transitions);
    let a = arc_of(w);
    let flags = z / 65536 % 65536;
    if flags == 8 {
        return lowers(arcs_effect::effect(plan, hp, a.place, a.transition));
    }
    if (flags == 9) | (flags == 10) {
        return balances(arcs_effect::effect(plan, hp, a.place, a.transition));
    }
    false
}

// The first rule that an arc leaves in doubt which wants a closer look; 4 where both its ends are kept.
fn doubt_at(
    plan: &[u8],
    hp: Header,
    slice: &[u8],
    hs: Header,
    criterion: &[u16],
    j: usize,
    places: &[usize],
    transitions: &[usize],
) -> usize
    requires ready { Ready plan.now hp slice.now hs criterion.now places.now transitions.now }
    requires j_lt_arcs { j < hp.arcs }
    ensures { 4 < result → Settled plan.now hp slice.now hs criterion.now result (arc_at plan.now (hp.arcstart + 8 * j)) }
{
    let w = word(plan, hp.arcstart + 8 * j);
    let z = joined(w, places, transitions);
    if z / 65536 % 65536 == 8 {
        return 8;
    }
    if kept(z) {
        return 4;
    }
    6
}

// The first rule in doubt after a closer look, 11 where none is. Where one is already, no effect is looked up; where the pass is tired, the rules 6 to 10 are in doubt.
fn look(
    plan: &[u8],
    hp: Header,
    slice: &[u8],
    hs: Header,
    criterion: &[u16],
    j: usize,
    places: &[usize],
    transitions: &[usize],
    doubt: usize,
    tired: bool,
) -> usize
    requires ready { Ready plan.now hp slice.now hs criterion.now places.now transitions.now }
    requires j_lt_arcs { j < hp.arcs }
    ensures { 4 < result → Settled plan.now hp slice.now hs criterion.now result (arc_at plan.now (hp.arcstart + 8 * j)) }
{
    if tired {
        return doubt_at(plan, hp, slice, hs, criterion, j, places, transitions).min(6);
    }
    if doubt < 11 {
        return doubt_at(plan, hp, slice, hs, criterion, j, places, transitions);
    }
    if settled(plan, hp, slice, hs, criterion, j, places, transitions) {
        return 11;
    }
    doubt_at(plan, hp, slice, hs, criterion, j, places, transitions)
}

// Goes on from there through the plan's arcs, up to one that wants a closer look.
fn stretch(
    plan: &[u8],
    hp: Header,
    slice: &[u8],
    hs: Header,
    criterion: &[u16],
    places: &[usize],
    transitions: &[usize],
    from: Walk,
) -> Walk
    requires ready { Ready plan.now hp slice.now hs criterion.now places.now transitions.now }
    requires walked { Walked plan.now hp slice.now hs criterion.now from.arc from.own from.differs from.doubt }
    ensures walked_2 { Walked plan.now hp slice.now hs criterion.now result.arc result.own result.differs result.doubt }
    ensures arc_le_arc { from.arc ≤ result.arc }
{
    let start = hp.arcstart;
    let first = hs.arcstart;
    let doubt = from.doubt;
    let mut k = from.own;
    let mut differs = from.differs;
    for j in from.arc..hp.arcs {
        if hs.arcs < k {
            return Walk {
                arc: j,
                own: k,
                differs,
                doubt,
            };
        }
        let w = word(plan, start + 8 * j);
        let z = joined(w, places, transitions);
        if pauses(z, doubt) {
            return Walk {
                arc: j,
                own: k,
                differs,
                doubt,
            };
        }
        differs = differs | unlike(z, word(slice, first + 8 * k));
        k += step(z);
    }
    Walk {
        arc: hp.arcs,
        own: k,
        differs,
        doubt,
    }
}

// The first of the rules 4 and 6 to 10 that the plan's arcs leave in doubt; 11 where none is. One arc in 32 gets a closer look, and 16 more.
fn pass(
    plan: &[u8],
    hp: Header,
    slice: &[u8],
    hs: Header,
    criterion: &[u16],
    places: &[usize],
    transitions: &[usize],
) -> usize
    requires { Ready plan.now hp slice.now hs criterion.now places.now transitions.now }
    ensures { 4 < result → Passed plan.now hp slice.now hs criterion.now result }
{
    let start = Walk {
        arc: 0,
        own: 0,
        differs: 0,
        doubt: 11,
    };
    let mut at = stretch(plan, hp, slice, hs, criterion, places, transitions, start);
    let mut seen: usize = 0;
    // Not over a range: a turn goes on by one stretch of arcs.
    while at.arc < hp.arcs {
        if hs.arcs < at.own {
            return 4;
        }
        let tired = 512 + at.arc < 32 * seen;
        let doubt = look(
            plan,
            hp,
            slice,
            hs,
            criterion,
            at.arc,
            places,
            transitions,
            at.doubt,
            tired,
        );
        if doubt <= 4 {
            return 4;
        }
        let from = Walk {
            arc: at.arc + 1,
            own: at.own,
            differs: at.differs,
            doubt: at.doubt.min(doubt),
        };
        at = stretch(plan, hp, slice, hs, criterion, places, transitions, from);
        seen += 1;
    }
    if quiet(at.differs) & (at.own == hs.arcs) {
        return at.doubt;
    }
    4
}

// The slice's arc as one word, by the sum of an arc whose ends are kept.
fn due(z: usize) -> usize
    requires { 4398046512128 + z / 131072 % 2 * 131072 ≤ z }
    ensures { result ≡ due_of z }
{
    z - RAISED - z / 131072 % 2 * 131072
}

// The slice's next arc after the plan's arc with the sum z: k where that is left out, k + 1 where the slice has the arc due, one past all where not.
fn meet(z: usize, slice: &[u8], hs: Header, k: usize) -> usize
    requires sound { Sound slice.now hs }
    requires k_le_arcs { k ≤ hs.arcs }
    requires z_bound { kept_of z ≡ true → 4398046512128 + z / 131072 % 2 * 131072 ≤ z }
    ensures { Meets z slice.now hs k result }
{
    if !kept(z) {
        return k;
    }
    if hs.arcs <= k {
        return hs.arcs + 1;
    }
    if word(slice, hs.arcstart + 8 * k) == due(z) {
        return k + 1;
    }
    hs.arcs + 1
}

// The plan's number of the transition of the slice's arc k; 65536 where it has no such arc.
fn origin(slice: &[u8], hs: Header, k: usize) -> usize
    requires sound { Sound slice.now hs }
    requires kind_value { hs.kind ≡ 1 }
    ensures value { k < hs.arcs → result ≡ get_or (slice_from slice.now hs).transition_origins (arc_at slice.now (hs.arcstart + 8 * k)).transition 0 }
    ensures value_2 { hs.arcs ≤ k → result ≡ 65536 }
{
    if hs.arcs <= k {
        return 65536;
    }
    let w = word(slice, hs.arcstart + 8 * k);
    get16(slice, hs.originstart + 2 * hs.places + 2 * (w % 65536))
}

// Rule 4 where an arc is not the one due, in the same tables: the lowest transition that breaks it. Past all transitions where none was found.
pub fn first_other(
    plan: &[u8],
    hp: Header,
    slice: &[u8],
    hs: Header,
    criterion: &[u16],
    places: &[usize],
    transitions: &[usize],
) -> usize
    requires { Ready plan.now hp slice.now hs criterion.now places.now transitions.now }
    ensures { result < hp.transitions → result ≡ breaker (rule4 (net_from plan.now hp) (slice_from slice.now hs)) }
{
    let start = hp.arcstart;
    let mut k: usize = 0;
    for j in 0..hp.arcs {
        let w = word(plan, start + 8 * j);
        let next = meet(joined(w, places, transitions), slice, hs, k);
        if hs.arcs < next {
            return origin(slice, hs, k).min(w % 65536);
        }
        k = next;
    }
    origin(slice, hs, k)
}

// The first of the rules 4 to 10 that is in doubt, 11 where all are certainly kept; 0 where nothing is known. The tables start with what stands for left out, and are filled where something is known.
pub fn agrees(
    plan: &[u8],
    hp: Header,
    slice: &[u8],
    hs: Header,
    criterion: &[u16],
    places: &mut [usize],
    transitions: &mut [usize],
) -> usize
    requires sound { Sound plan.now hp }
    requires sound_2 { Sound slice.now hs }
    requires kind_value { hs.kind ≡ 1 }
    requires criterion_value { criterion_refusal hp.places criterion.now ≡ 0 }
    requires blank { Blank hp (slice_from slice.now hs) places.old transitions.old }
    ensures agreed { Agreed result (net_from plan.now hp) (slice_from slice.now hs) criterion.now }
    ensures ready { 0 < result → Ready plan.now hp slice.now hs criterion.now places.new transitions.new }
{
    number(slice, hs.originstart, hs.places, PLACE, places);
    number(
        slice,
        hs.originstart + 2 * hs.places,
        hs.transitions,
        1,
        transitions,
    );
    if !all_kept(criterion, places) {
        return 0;
    }
    mark(criterion, places);
    mark_capped(plan, hp, places);
    pass(plan, hp, slice, hs, criterion, places, transitions)
}

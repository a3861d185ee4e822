#![tactic(auto)]

// The cut for one recorded run (document 02, A1): the slice of what fed the places of the criterion, and the positions of the firings that did.
ghost use Rattle.std.specs.Prelude.{◌≡◌, ◌++◌, ◌*◌, ◌≤◌, ◌<◌, ltb, length, drop};
ghost use Rattle.net.specs.Net.{replay as replay_of};
ghost use Rattle.file.specs.Facts.{Sound};
ghost use Rattle.file.specs.Layout.{net_from};
ghost use Rattle.file.specs.Criterion.{criterion_refusal};
ghost use Rattle.arcs_starts.specs.Table.{choose};
ghost use Rattle.promise.specs.Firing.{list_refusal, replay_or};
ghost use Rattle.promise.specs.RunCut.{run_outcome};
ghost use Rattle.replay.specs.Told.{outcome_numbers};
ghost use Rattle.run_feed.specs.Back.{end_of};
ghost use Rattle.slice.specs.Kept.{kept_pair};
ghost use Rattle.run_cut.specs.Told.{answer_to, Answers};
ghost use Rattle.run_cut.specs.Parts.{Given, Lent, Cleared, Empty, chosen_by, Reached, FedBy};

use file_header::Header;
use refusals::Refusal;
use replay::Outcome;
use tables::{LARGE, LARGE_ARCS, MIDDLE, MIDDLE_ARCS, SMALL, SMALL_ARCS, entry};

// Rows of arcs: two a place.
const SMALL_ROWS: usize = 2 * SMALL;

const MIDDLE_ROWS: usize = 2 * MIDDLE;

const LARGE_ROWS: usize = 2 * LARGE;

// What it answers where nothing is refused: the file's length, the kept places and transitions, and how many positions were chosen; or where the list sticks.
#[derive(Clone, Copy, Debug, PartialEq, Eq)]
pub enum RunCut {
    Written(u32, u32, u32, u32),
    Sticks(u32, u32, u32),
}

// Firing i counts where it is below the entry of its transition.
fn share(i: usize, upto: usize) -> usize
    ensures { result ≡ choose (ltb i upto) 1 0 }
{
    if i < upto { 1 } else { 0 }
}

// How many firings are chosen.
fn counted(list: &[u16], last: &[u16], end: usize) -> usize
    requires { Reached list.now last.now × (end ≡ end_of (chosen_by list.now last.now)) }
    ensures { result ≡ length (chosen_by list.now last.now) }
{
    let mut n: usize = 0;
    for k in 0..end {
        let t = list[k] as usize;
        n += share(k, entry(last, t));
    }
    n
}

// Are there more chosen firings than `room`? They are counted only where there could be.
fn lacks(list: &[u16], last: &[u16], end: usize, room: usize) -> bool
    requires { Reached list.now last.now × (end ≡ end_of (chosen_by list.now last.now)) }
    ensures { result ≡ ltb room (length (chosen_by list.now last.now)) }
{
    if end <= room {
        return false;
    }
    room < counted(list, last, end)
}

// Writes the chosen positions, and counts them. An entry is written for each firing up to the last chosen one; one that is not chosen is written over.
fn write_positions(list: &[u16], last: &[u16], end: usize, positions: &mut [u16]) -> usize
    requires { Reached list.now last.now × (end ≡ end_of (chosen_by list.now last.now)) × (length (chosen_by list.now last.now) ≤ length positions.old) }
    ensures { (result ≡ length (chosen_by list.now last.now)) × (positions.new ≡ chosen_by list.now last.now ++ drop (length (chosen_by list.now last.now)) positions.old) }
{
    let mut n: usize = 0;
    for i in 0..end {
        positions[n] = i as u16;
        let t = list[i] as usize;
        n += share(i, entry(last, t));
    }
    n
}

// Writes the slice and the positions, or neither where one has no room.
fn write<'a>(
    plan: &[u8],
    h: Header,
    criterion: &[u16],
    list: &[u16],
    last: &[u16],
    places: &'a [u64; 16],
    transitions: &'a [u64; 16],
    end: usize,
    buffer: &mut [u8],
    positions: &mut [u16],
) -> Result<RunCut, Refusal>
    requires given { Given plan.now h criterion.now list.now }
    requires fed_by { FedBy plan.now h criterion.now list.now last.now (kept_pair places.now transitions.now) end }
    ensures { Answers plan.now h criterion.now list.now (run_outcome h.edition (net_from plan.now h) criterion.now list.now (length buffer.old) (length positions.old)) buffer.old buffer.new positions.old positions.new result }
{
    if lacks(list, last, end, positions.len()) {
        return Err(Refusal::Buffer);
    }
    let cut = slice::write(plan, h, places, transitions, buffer)?;
    let count = write_positions(list, last, end, positions);
    let chosen = count as u32;
    Ok(RunCut::Written(cut.length, cut.places, cut.transitions, chosen))
}

// What fed the criterion, by tables that the caller lends: its places and transitions are added to two empty sets, and `last` gets one more than the last chosen firing of each transition.
// The answer is one more than the last of all.
fn fed_by(
    plan: &[u8],
    h: Header,
    criterion: &[u16],
    list: &[u16],
    head: &mut [u32],
    next: &mut [u32],
    first: &mut [u16],
    last: &mut [u16],
    places: &mut [u64; 16],
    transitions: &mut [u64; 16],
) -> usize
    requires given { Given plan.now h criterion.now list.now }
    requires lent { Lent h head.old next.old first.old × Cleared h last.old }
    requires empty { Empty places.old × Empty transitions.old }
    ensures { FedBy plan.now h criterion.now list.now last.new (kept_pair places.new transitions.new) result }
{
    cut_index::index(plan, h, head, next);
    run_feed::enter_criterion(plan, h, head, next, last, criterion, places, first);
    run_feed::back(
        plan,
        h,
        head,
        next,
        criterion,
        list,
        places,
        first,
        transitions,
        last,
    )
}

// The run cut where the list fires, by tables that the caller lends.
fn write_by(
    plan: &[u8],
    h: Header,
    criterion: &[u16],
    list: &[u16],
    head: &mut [u32],
    next: &mut [u32],
    first: &mut [u16],
    last: &mut [u16],
    buffer: &mut [u8],
    positions: &mut [u16],
) -> Result<RunCut, Refusal>
    requires given { Given plan.now h criterion.now list.now }
    requires lent { Lent h head.old next.old first.old × Cleared h last.old }
    ensures { Answers plan.now h criterion.now list.now (run_outcome h.edition (net_from plan.now h) criterion.now list.now (length buffer.old) (length positions.old)) buffer.old buffer.new positions.old positions.new result }
{
    let mut places = [0u64; 16];
    let mut transitions = [0u64; 16];
    let end = fed_by(
        plan,
        h,
        criterion,
        list,
        head,
        next,
        first,
        last,
        &mut places,
        &mut transitions,
    );
    write(
        plan,
        h,
        criterion,
        list,
        last,
        &places,
        &transitions,
        end,
        buffer,
        positions,
    )
}

// With tables for N places and transitions, ROWS rows, two a place, and ARCS arcs.
fn write_sized<const N: usize, const ROWS: usize, const ARCS: usize>(
    plan: &[u8],
    h: Header,
    criterion: &[u16],
    list: &[u16],
    buffer: &mut [u8],
    positions: &mut [u16],
) -> Result<RunCut, Refusal>
    requires given { Given plan.now h criterion.now list.now }
    requires reach { (2 * h.places ≤ ROWS) × (h.arcs ≤ ARCS) × (h.transitions ≤ N) }
    requires size { (N ≤ 1024) × (ROWS ≤ 2048) × (ARCS ≤ 4096) }
    ensures { Answers plan.now h criterion.now list.now (run_outcome h.edition (net_from plan.now h) criterion.now list.now (length buffer.old) (length positions.old)) buffer.old buffer.new positions.old positions.new result }
{
    let mut head = [0u32; ROWS];
    let mut next = [0u32; ARCS];
    let mut first = [0u16; N];
    let mut last = [0u16; N];
    write_by(
        plan, h, criterion, list, &mut head, &mut next, &mut first, &mut last, buffer, positions,
    )
}

// The same, with tables as large as the plan needs them.
fn write_fed(
    plan: &[u8],
    h: Header,
    criterion: &[u16],
    list: &[u16],
    buffer: &mut [u8],
    positions: &mut [u16],
) -> Result<RunCut, Refusal>
    requires { Given plan.now h criterion.now list.now }
    ensures { Answers plan.now h criterion.now list.now (run_outcome h.edition (net_from plan.now h) criterion.now list.now (length buffer.old) (length positions.old)) buffer.old buffer.new positions.old positions.new result }
{
    if (h.places <= SMALL) & (h.arcs <= SMALL_ARCS) & (h.transitions <= SMALL) {
        return write_sized::<SMALL, SMALL_ROWS, SMALL_ARCS>(
            plan, h, criterion, list, buffer, positions,
        );
    }
    if (h.places <= MIDDLE) & (h.arcs <= MIDDLE_ARCS) & (h.transitions <= MIDDLE) {
        return write_sized::<MIDDLE, MIDDLE_ROWS, MIDDLE_ARCS>(
            plan, h, criterion, list, buffer, positions,
        );
    }
    write_sized::<LARGE, LARGE_ROWS, LARGE_ARCS>(plan, h, criterion, list, buffer, positions)
}

// How the list fares from the plan's marking. The marking that it ends with is not asked for.
fn fares(plan: &[u8], h: Header, list: &[u16]) -> Result<Outcome, Refusal>
    requires { Sound plan.now h }
    ensures { outcome_numbers result ≡ replay_or (list_refusal h.transitions list.now) (replay_of (net_from plan.now h) list.now).answer }
{
    if h.places <= SMALL {
        let mut marking = [0u64; SMALL];
        return replay::replay(plan, h, list, &mut marking);
    }
    if h.places <= MIDDLE {
        let mut marking = [0u64; MIDDLE];
        return replay::replay(plan, h, list, &mut marking);
    }
    let mut marking = [0u64; LARGE];
    replay::replay(plan, h, list, &mut marking)
}

// The run cut of a plan that was read and a criterion that is not refused.
pub fn run(
    plan: &[u8],
    h: Header,
    criterion: &[u16],
    list: &[u16],
    buffer: &mut [u8],
    positions: &mut [u16],
) -> Result<RunCut, Refusal>
    requires { Sound plan.now h × (criterion_refusal h.places criterion.now ≡ 0) }
    ensures { Answers plan.now h criterion.now list.now (answer_to plan.now h criterion.now list.now (length buffer.old) (length positions.old)) buffer.old buffer.new positions.old positions.new result }
{
    let outcome = fares(plan, h, list)?;
    match outcome {
        Outcome::Short(i, p, n) => Ok(RunCut::Sticks(i, p, n)),
        Outcome::Full(i, p, n) => Ok(RunCut::Sticks(i, p, n)),
        Outcome::Fired => write_fed(plan, h, criterion, list, buffer, positions),
    }
}

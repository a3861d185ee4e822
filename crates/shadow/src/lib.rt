#![tactic(auto)]

// A run and its shadow: a list is replayed on a plan, and its fired part projected to a slice.
ghost use Rattle.std.specs.Prelude.{◌≡◌, ℕ, ◌<◌, ◌≤◌, ◌||◌, ◌++◌, length, get_or, take, drop, ltb, leb};
ghost use Rattle.file.specs.Layout.{net_from, slice_from};
ghost use Rattle.file.specs.Facts.{Sound};
ghost use Rattle.projection.specs.Choice.{chosen_by};
ghost use Rattle.shadow.specs.Told.{fired_of, with_count, fired_projection, Fireable, Given, Casts, Roomy, Follows};

use file_header::Header;
use refusals::Refusal;
use replay::Outcome;
use tables::{LARGE, MIDDLE, SMALL};

// How a run ends, with the count of its firings that the slice has: all fired; or stuck, at an index of the list and a place, short
// of so many tokens, or full by so many above its cap, with the count of those before.
#[derive(Clone, Copy, Debug, PartialEq, Eq)]
pub enum Shadow {
    Fired(u32),
    Short(u32, u32, u32, u32),
    Full(u32, u32, u32, u32),
}

// How many of a list's transitions a replay fired.
fn fired(o: Outcome, whole: usize) -> usize
    ensures { result ≡ fired_of o whole }
{
    match o {
        Outcome::Fired => whole,
        Outcome::Short(i, _, _) => i as usize,
        Outcome::Full(i, _, _) => i as usize,
    }
}

// A replay's outcome, with the count of what was projected.
fn with_count(o: Outcome, count: u32) -> Shadow
    ensures { result ≡ with_count o count }
{
    match o {
        Outcome::Fired => Shadow::Fired(count),
        Outcome::Short(i, p, n) => Shadow::Short(i, p, n, count),
        Outcome::Full(i, p, n) => Shadow::Full(i, p, n, count),
    }
}

// Writes the numbers that a table gives for what a replay of the list fired, where the output list has room for them.
fn write_fired(table: &[u16], list: &[u16], o: Outcome, out: &mut [u16]) -> Result<Shadow, Refusal>
    requires { Fireable table.now list.now o }
    ensures { Casts (chosen_by table.now (take (fired_of o (length list.now)) list.now)) out.old out.new o result }
{
    let end = fired(o, list.len());
    let part = &list[..end];
    let lacking = projection::lacks(table, part, out.len());
    if lacking {
        return Err(Refusal::Buffer);
    }
    let n = projection::write(table, part, out);
    let count = n as u32;
    Ok(with_count(o, count))
}

// Projects what a replay of the list fired, by a table of N numbers. It is made a part of each caller.
#[inline(always)]
fn project_by<const N: usize>(
    slice: &[u8],
    s: Header,
    list: &[u16],
    o: Outcome,
    out: &mut [u16],
) -> Result<Shadow, Refusal>
    requires { Given slice.now s list.now o N × (N ≤ 1024) }
    ensures { Casts (fired_projection (slice_from slice.now s) o list.now) out.old out.new o result }
{
    let mut table = [0u16; N];
    projection::numbers(slice, s, &mut table);
    write_fired(&table, list, o, out)
}

// The same, with a table that is as large as the plan, of so many transitions, needs it.
fn project_fired(
    transitions: usize,
    slice: &[u8],
    s: Header,
    list: &[u16],
    o: Outcome,
    out: &mut [u16],
) -> Result<Shadow, Refusal>
    requires { Given slice.now s list.now o transitions × (transitions ≤ 1024) }
    ensures { Casts (fired_projection (slice_from slice.now s) o list.now) out.old out.new o result }
{
    if transitions <= 64 {
        return project_by::<64>(slice, s, list, o, out);
    }
    project_by::<LARGE>(slice, s, list, o, out)
}

// Projects what a replay in the lent marking fired, after which nothing is left to do: apart, so that for a small plan only the small table is in the frame of the call.
fn project_last(
    transitions: usize,
    slice: &[u8],
    s: Header,
    list: &[u16],
    o: Outcome,
    out: &mut [u16],
) -> Result<Shadow, Refusal>
    requires { Given slice.now s list.now o transitions × (transitions ≤ 1024) }
    ensures { Casts (fired_projection (slice_from slice.now s) o list.now) out.old out.new o result }
{
    if transitions <= 64 {
        return project_by::<64>(slice, s, list, o, out);
    }
    project_fired(transitions, slice, s, list, o, out)
}

// Writes a list to one that is as long. By a loop, of which the compiler makes a call of memcpy: `copy_from_slice` calls memmove, which the archive does not ask of its users.
fn copy(from: &[u64], to: &mut [u64])
    requires { length to.old ≡ length from.now }
    ensures { to.new ≡ from.now }
{
    for p in 0..from.len() {
        to[p] = from[p];
    }
}

// The output list may be too short for what is fired: the plan is replayed apart, and the marking written last.
fn shadow_apart(
    plan: &[u8],
    p: Header,
    slice: &[u8],
    s: Header,
    list: &[u16],
    apart: &mut [u64],
    marking: &mut [u64],
    out: &mut [u16],
) -> Result<Shadow, Refusal>
    requires roomy { Roomy plan.now p (length apart.old) (length marking.old) }
    requires sound { Sound slice.now s × (s.kind ≡ 1) }
    ensures { Follows (net_from plan.now p) (slice_from slice.now s) list.now marking.old marking.new out.old out.new result }
{
    let o = replay::replay(plan, p, list, apart)?;
    let r = project_fired(p.transitions, slice, s, list, o, out)?;
    let n = p.places;
    copy(&apart[..n], &mut marking[..n]);
    Ok(r)
}

// The same, with entries apart as many as the plan needs.
fn shadow_sized(
    plan: &[u8],
    p: Header,
    slice: &[u8],
    s: Header,
    list: &[u16],
    marking: &mut [u64],
    out: &mut [u16],
) -> Result<Shadow, Refusal>
    requires sound { Sound plan.now p × (p.places ≤ length marking.old) }
    requires sound_2 { Sound slice.now s × (s.kind ≡ 1) }
    ensures { Follows (net_from plan.now p) (slice_from slice.now s) list.now marking.old marking.new out.old out.new result }
{
    if p.places <= SMALL {
        let mut apart = [0u64; SMALL];
        return shadow_apart(plan, p, slice, s, list, &mut apart, marking, out);
    }
    if p.places <= MIDDLE {
        let mut apart = [0u64; MIDDLE];
        return shadow_apart(plan, p, slice, s, list, &mut apart, marking, out);
    }
    let mut apart = [0u64; LARGE];
    shadow_apart(plan, p, slice, s, list, &mut apart, marking, out)
}

// Is it certain that a marking that is written stays: since the output list has room for the whole list, or since the marking is too short for any?
fn certain(listed: usize, room: usize, entries: usize, places: usize) -> bool
    ensures { result ≡ (leb listed room || ltb entries places) }
{
    (listed <= room) | (entries < places)
}

// Replays the list on the plan and projects what was fired to the slice. Refused, the marking and the output list keep every entry.
pub fn shadow_of(
    plan: &[u8],
    p: Header,
    slice: &[u8],
    s: Header,
    list: &[u16],
    marking: &mut [u64],
    out: &mut [u16],
) -> Result<Shadow, Refusal>
    requires sound { Sound plan.now p }
    requires sound_2 { Sound slice.now s × (s.kind ≡ 1) }
    ensures { Follows (net_from plan.now p) (slice_from slice.now s) list.now marking.old marking.new out.old out.new result }
{
    if certain(list.len(), out.len(), marking.len(), p.places) {
        let o = replay::replay(plan, p, list, marking)?;
        return project_last(p.transitions, slice, s, list, o, out);
    }
    shadow_sized(plan, p, slice, s, list, marking, out)
}

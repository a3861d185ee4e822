#![tactic(auto)]

// Tables of 16-bit numbers, and the sizes in which tables are made.
ghost use Rattle.std.specs.Prelude.{◌≡◌, ℕ, ◌<◌, length, get_or};

// The sizes: entries for so many places or transitions. Clearing a large table is most of the time of a call on a small net.
pub const SMALL: usize = 16;

pub const MIDDLE: usize = 128;

pub const LARGE: usize = 1024;

// The same for arcs, four a place.
pub const SMALL_ARCS: usize = 4 * SMALL;

pub const MIDDLE_ARCS: usize = 4 * MIDDLE;

pub const LARGE_ARCS: usize = 4 * LARGE;

// A public name of docs/MAP.md; new code writes usize::from.
pub fn wide(x: u16) -> usize
    ensures { (result ≡ x) × (result < 65536) }
{
    usize::from(x)
}

// Entry i of a table.
pub fn entry(table: &[u16], i: usize) -> usize
    requires { i < length table.now }
    ensures { (result ≡ get_or table.now i 0) × (result < 65536) }
{
    usize::from(table[i])
}

// Sets each entry to 0.
pub fn clear(table: &mut [u16])
    ensures { (length table.new ≡ length table.old) × ((k : ℕ) → get_or table.new k 0 ≡ 0) }
{
    table.fill(0);
}

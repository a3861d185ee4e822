#![tactic(auto)]

// Where the arcs of each transition start: a table that is made once.
ghost use Rattle.std.specs.Prelude.{◌≡◌, ℕ, ◌+◌, ◌*◌, ◌<◌, ◌≤◌, length, get_or};
ghost use Rattle.file_arcs.specs.Layout.{arc_at};
ghost use Rattle.file_arcs.specs.Facts.{ArcSmall};
ghost use Rattle.arcs_starts.specs.Table.{slot_of, running_most, Latest, Split, Past, Slots, Ordered, Tabled, PutUp};

use net::Arc;

// Inputs of t have slot 2t, outputs 2t + 1.
fn slot(a: Arc) -> usize
    requires { ArcSmall a }
    ensures { (result ≡ slot_of a) × (result < 131326) }
{
    2 * a.transition + a.direction
}

// Sets entry k + 1 to one more than the last arc with slot k; the others stay 0.
fn ends(file: &[u8], start: usize, count: usize, table: &mut [u16])
    requires slots { Slots file.now start count (length table.old) }
    requires by_index { (k : ℕ) → get_or table.old k 0 ≡ 0 }
    ensures { (length table.new ≡ length table.old) × (get_or table.new 0 0 ≡ 0) × ((k : ℕ) → Latest file.now start count k (get_or table.new (k + 1) 0)) }
{
    for j in 0..count {
        let a = file_arcs::arc(file, start + 8 * j);
        let k = slot(a);
        table[k + 1] = (j + 1) as u16;
    }
}

// Entry k becomes the largest of the entries up to k.
fn fill(last: usize, table: &mut [u16])
    requires last_in_bounds { last < length table.old }
    requires table_value { get_or table.old 0 0 ≡ 0 }
    ensures { (length table.new ≡ length table.old) × ((k : ℕ) → k ≤ last → get_or table.new k 0 ≡ running_most table.old k) }
{
    let mut most: u16 = 0;
    for k in 0..last {
        most = most.max(table[k + 1]);
        table[k + 1] = most;
    }
}

// Entry k, up to twice the transitions, is the number of arcs whose slot is below k.
pub fn starts(file: &[u8], start: usize, count: usize, transitions: usize, table: &mut [u16])
    requires { Tabled file.now start count transitions (length table.old) }
    ensures { (length table.new ≡ length table.old) × ((k : ℕ) → k ≤ 2 * transitions → Split file.now start count k (get_or table.new k 0)) }
{
    tables::clear(table);
    ends(file, start, count, table);
    fill(2 * transitions, table);
}

// Sets the entries from `next` to `last`, and answers which is next then.
fn put_up(next: usize, last: usize, value: u16, table: &mut [u16]) -> usize
    requires { last < length table.old }
    ensures { PutUp next last value table.old table.new result }
{
    for k in next..last + 1 {
        table[k] = value;
    }
    next.max(last + 1)
}

// Entry t, up to the number of transitions, becomes the number of arcs of transitions below t: each is known at the first arc that is not of one.
pub fn firsts(file: &[u8], start: usize, count: usize, transitions: usize, table: &mut [u16])
    requires tabled { Tabled file.now start count transitions (2 * length table.old) }
    requires by_index { (i : ℕ) → i < count → (arc_at file.now (start + 8 * i)).direction ≤ 1 }
    ensures { (length table.new ≡ length table.old) × ((t : ℕ) → t ≤ transitions → Split file.now start count (2 * t) (get_or table.new t 0)) }
{
    let mut next: usize = 0;
    for j in 0..count {
        let a = file_arcs::arc(file, start + 8 * j);
        next = put_up(next, a.transition, j as u16, table);
    }
    put_up(next, transitions, count as u16, table);
}

// How many arcs have a slot below k, by halving: they stand first, and all before `from` are known to be.
fn halved_from(file: &[u8], start: usize, from: usize, count: usize, k: usize) -> usize
    requires { Ordered file.now start count × (from ≤ count) × Past file.now start from k }
    ensures { Split file.now start count k result }
{
    let mut low = from;
    let mut high = count;
    while low < high {
        let middle = (low + high) / 2;
        let a = file_arcs::arc(file, start + 8 * middle);
        if slot(a) < k {
            low = middle + 1;
        } else {
            high = middle;
        }
    }
    low
}

// How many arcs have a slot below k: they stand first.
pub fn first_from(file: &[u8], start: usize, count: usize, k: usize) -> usize
    requires { Ordered file.now start count }
    ensures { Split file.now start count k result }
{
    halved_from(file, start, 0, count, k)
}

// The same where all before `from` are known to be: most transitions have few arcs, so the next four are looked at one by one.
pub fn next_from(file: &[u8], start: usize, from: usize, count: usize, k: usize) -> usize
    requires { Ordered file.now start count × (from ≤ count) × Past file.now start from k }
    ensures { Split file.now start count k result }
{
    let near = count.min(from + 4);
    for low in from..near {
        let a = file_arcs::arc(file, start + 8 * low);
        if k <= slot(a) {
            return low;
        }
    }
    halved_from(file, start, near, count, k)
}

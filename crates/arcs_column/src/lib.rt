#![tactic(auto)]

// What a transition does to each place, in one column of numbers.
ghost use Rattle.std.specs.Prelude.{◌≡◌, ℕ, ◌+◌, ◌*◌, ◌<◌, ◌≤◌, length, get_or};
ghost use Rattle.arcs_column.specs.Gain.{sum_to, pulls, pulled_to, Run, Takes, Gives, Rested};

// Takes the weights of the arcs from `from` to `to` out of the column.
pub fn take(file: &[u8], start: usize, from: usize, to: usize, column: &mut [u32])
    requires run { Run file.now start from to (length column.old) }
    requires by_index { (p : ℕ) → sum_to file.now start p to ≤ get_or column.old p 0 + sum_to file.now start p from }
    ensures { Takes file.now start from to column.old column.new }
{
    for j in from..to {
        let a = file_arcs::arc(file, start + 8 * j);
        let p = a.place;
        column[p] -= a.weight as u32;
    }
}

// Puts the weights of the arcs from `from` to `to` into the column.
pub fn give(file: &[u8], start: usize, from: usize, to: usize, column: &mut [u32])
    requires run { Run file.now start from to (length column.old) }
    requires by_index { (p : ℕ) → get_or column.old p 0 + sum_to file.now start p to < 4294967296 + sum_to file.now start p from }
    ensures { Gives file.now start from to column.old column.new }
{
    for j in from..to {
        let a = file_arcs::arc(file, start + 8 * j);
        let p = a.place;
        column[p] += a.weight as u32;
    }
}

// Where the column of a place stands at rest: 2 ^ 30.
pub const AT_REST: u32 = 1073741824;

// Is a place pulled whose column stands at g?
fn pulling(limit: u32, g: u32) -> bool
    ensures { result ≡ pulls limit g }
{
    (limit < g) & (g != AT_REST)
}

// Is a place of the arcs from `from` to `to` pulled? Their places are put to rest.
pub fn pulled(
    file: &[u8],
    start: usize,
    from: usize,
    to: usize,
    limit: &[u32],
    column: &mut [u32],
) -> bool
    requires run { Run file.now start from to (length column.old) }
    requires limit_len { length limit.now ≡ length column.old }
    ensures value { result ≡ pulled_to file.now start limit.now column.old from (to) }
    ensures rested { Rested file.now start from to column.old column.new }
{
    let mut found = false;
    for j in from..to {
        let a = file_arcs::arc(file, start + 8 * j);
        let p = a.place;
        let here = pulling(limit[p], column[p]);
        column[p] = AT_REST;
        found |= here;
    }
    found
}

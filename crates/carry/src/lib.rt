#![tactic(auto)]

// Carries a running marking to the places of another plan, by a table.
ghost use Rattle.std.specs.Prelude.{◌≡◌, ◌&&◌, ℕ, ◌+◌, ◌<◌, ◌≤◌, eqb, ltb, length, get_or};
ghost use Rattle.std.specs.List.{list_any};
ghost use Rattle.refusals.specs.Numbers.{refusal_number};
ghost use Rattle.net.specs.Net.{counted, tokens};
ghost use Rattle.file.specs.Layout.{net_from};
ghost use Rattle.file.specs.Facts.{Sound};
ghost use Rattle.promise.specs.Calls.{written};
ghost use Rattle.promise.specs.Transfer.{carried_to, names_no_place, table_wrong, strands, carry_refusal};
ghost use Rattle.carry.specs.Sums.{Passed, AddsUp, sums_refusal};

use file_header::Header;
use refusals::Refusal;
use tables::{LARGE, wide};

// Neither a place of a plan that has so many nor 65,535?
fn no_place(places: usize, x: usize) -> bool
    ensures { result ≡ names_no_place places x }
{
    (places <= x) & (x != 65535)
}

// Has the table such an entry?
fn has_unknown(table: &[u16], places: usize) -> bool
    ensures { result ≡ list_any (names_no_place places) table.now }
{
    table.iter().any(|x| no_place(places, wide(*x)))
}

// Has the running marking or the table a wrong length, or the table an entry that is no place?
fn table_wrong(old: usize, new: usize, running: &[u64], table: &[u16]) -> bool
    ensures { result ≡ table_wrong old new running.now table.now }
{
    if running.len() != old {
        return true;
    }
    if table.len() != old {
        return true;
    }
    has_unknown(table, new)
}

// Tokens, and no target?
fn no_target(x: usize, n: u64) -> bool
    ensures { result ≡ (eqb x 65535 && ltb 0 n) }
{
    (x == 65535) & (0 < n)
}

// Has a marked place no target?
fn stranded(table: &[u16], running: &[u64]) -> bool
    requires { length table.now ≡ length running.now }
    ensures { result ≡ strands table.now running.now }
{
    for (i, x) in table.iter().enumerate() {
        if no_target(wide(*x), running[i]) {
            return true;
        }
    }
    false
}

// Adds n to the sum of place q, where that is one.
fn add(sums: &mut [u64], q: usize, n: u64)
    requires { (p : ℕ) → get_or sums.old p 0 + n < 18446744073709551616 }
    ensures { (length sums.new ≡ length sums.old) × ((p : ℕ) → p < length sums.old → get_or sums.new p 0 ≡ get_or sums.old p 0 + counted (eqb q p) n) }
{
    if q < sums.len() {
        sums[q] = sums[q] + n;
    }
}

// Adds each old place's tokens to the sum of its new place; false where one has more than a plan can hold.
fn add_up(table: &[u16], running: &[u64], sums: &mut [u64]) -> bool
    requires { Passed table.now running.now sums.old }
    ensures { AddsUp table.now running.now sums.old sums.new result }
{
    for (i, x) in table.iter().enumerate() {
        let n = running[i];
        if 4294967295 < n {
            return false;
        }
        add(sums, wide(*x), n);
    }
    true
}

// The sums, in a list that is lent with an entry for each new place: refused by 24 or 13, or they are written.
fn carry_in(
    new: &[u8],
    h: Header,
    running: &[u64],
    table: &[u16],
    sums: &mut [u64],
    marking: &mut [u64],
) -> Result<(), Refusal>
    requires sound { Sound new.now h }
    requires sums_len { length sums.old ≡ h.places }
    requires passed { Passed table.now running.now sums.old }
    ensures value { refusal_number result ≡ sums_refusal (net_from new.now h) running.now table.now (length marking.old) }
    ensures marking_after { marking.new ≡ written (refusal_number result) (tokens (net_from new.now h) (λ q. carried_to q table.now running.now)) marking.old }
{
    if !add_up(table, running, sums) {
        return Err(Refusal::Tokens);
    }
    if inputs_starts::overfull(new, h, sums) {
        return Err(Refusal::Tokens);
    }
    let places = h.places;
    if marking.len() < places {
        return Err(Refusal::Buffer);
    }
    marking[..places].copy_from_slice(sums);
    Ok(())
}

// Carries the running marking of a plan of `old` places to the places of a new one: refused by 22, 23, 24 or 13.
pub fn carry(
    old: usize,
    new: &[u8],
    h: Header,
    running: &[u64],
    table: &[u16],
    marking: &mut [u64],
) -> Result<(), Refusal>
    requires bound { old ≤ 1024 }
    requires sound { Sound new.now h }
    ensures answer { refusal_number result ≡ carry_refusal old (net_from new.now h) running.now table.now (length marking.old) }
    ensures marking { marking.new ≡ written (refusal_number result) (tokens (net_from new.now h) (λ q. carried_to q table.now running.now)) marking.old }
{
    if table_wrong(old, h.places, running, table) {
        return Err(Refusal::Entries);
    }
    if stranded(table, running) {
        return Err(Refusal::Stranded);
    }
    let places = h.places;
    let mut sums = [0u64; LARGE];
    carry_in(new, h, running, table, &mut sums[..places], marking)
}

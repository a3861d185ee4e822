#![tactic(auto)]

// The own numbers of a slice: from the plan's numbers to the slice's.
ghost use Rattle.std.specs.Prelude.{◌≡◌, ℕ, length, get_or, set};
ghost use Rattle.file.specs.Layout.{words_from};
ghost use Rattle.numbering.specs.Own.{Own, Origins};

// Sets the entry of an origin, where the table has one.
fn put(table: &mut [u16], origin: usize, number: u16)
    ensures { table.new ≡ set table.old origin number }
{
    if table.len() <= origin {
        return;
    }
    table[origin] = number;
}

// Entry x of a table of zeros becomes one more than the slice's own number of x, where x is among the origins.
pub fn own_in(file: &[u8], start: usize, count: usize, table: &mut [u16])
    requires origins { Origins file.now start count }
    requires by_index { (k : ℕ) → get_or table.old k 0 ≡ 0 }
    ensures { (length table.new ≡ length table.old) × Own (words_from file.now start count) table.new }
{
    for i in 0..count {
        let origin = file_words::get16(file, start + 2 * i);
        put(table, origin, (i + 1) as u16);
    }
}

// The same in any table: 0 where x is not among the origins.
pub fn own(file: &[u8], start: usize, count: usize, table: &mut [u16])
    requires { Origins file.now start count }
    ensures { (length table.new ≡ length table.old) × Own (words_from file.now start count) table.new }
{
    table.fill(0);
    own_in(file, start, count, table);
}

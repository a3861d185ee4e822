#![tactic(auto)]

// The members of a set as a rising list, and the places of the members in it.
ghost use Rattle.std.specs.Prelude.{◌≡◌, ◌+◌, ◌*◌, ◌<◌, ◌≤◌, length};
ghost use Rattle.std.proofs.lemmas.List.Edits.{sets};
ghost use Rattle.net.specs.Numbers.{selected};
ghost use Rattle.numbering.specs.Own.{Own};
ghost use Rattle.sets.specs.Member.{member};
ghost use Rattle.slice_members.specs.List.{bits_from, Listed};

// Stores the numbers of the bits of a word that are 1, each with `base` added, from entry `from` on; the entry after the last.
fn word_members(word: u64, base: usize, from: usize, list: &mut [u16]) -> usize
    requires base_bound { base ≤ 1024 }
    requires word_in_bounds { from + length (bits_from base word) ≤ length list.old }
    ensures { (result ≡ from + length (bits_from base word)) × (list.new ≡ sets list.old from (bits_from base word)) }
{
    let mut w = word;
    let mut n = from;
    while w != 0 {
        let z = u64::trailing_zeros(w) as usize;
        list[n] = (base + z) as u16;
        n += 1;
        w = w & (w - 1);
    }
    n
}

// Stores the members that the first words have, rising, from the first entry on.
pub fn members(words: &[u64; 16], count: usize, list: &mut [u16])
    requires count_bound { count ≤ 16 }
    requires count_in_bounds { length (selected (member words.now) 0 (count * 64)) ≤ length list.old }
    ensures { list.new ≡ sets list.old 0 (selected (member words.now) 0 (count * 64)) }
{
    let mut n: usize = 0;
    for i in 0..count {
        n = word_members(words[i], i * 64, n, list);
    }
}

// Stores one more than each entry's place in the list, at the number that the entry is.
pub fn positions(list: &[u16], table: &mut [u16])
    requires { Listed list.now table.old }
    ensures { (length table.new ≡ length table.old) × Own list.now table.new }
{
    for (i, x) in list.iter().enumerate() {
        table[*x as usize] = (i + 1) as u16;
    }
}

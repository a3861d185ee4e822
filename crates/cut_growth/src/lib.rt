#![tactic(auto)]

// The pair of kept sets grows while a cut runs: `add` takes it by reference, and is called until no place is pending.
ghost use Rattle.std.specs.Prelude.{ℕ, ◌<◌, T};
ghost use Rattle.file.specs.Facts.{Sound};
ghost use Rattle.sets.specs.Member.{member};
ghost use Rattle.cut_rows.specs.Rows.{Rows};
ghost use Rattle.cut_search.specs.Search.{Sets, Ready, Stepped, Finished, Closed};
ghost use Rattle.cut_growth.specs.Added.{Added};

use file_header::Header;
use sets::KeptSets;

// The pair with one place more, by value: so a cut starts.
pub fn with(kept: KeptSets, p: usize) -> KeptSets
    requires { p < 1024 }
    ensures { Added p kept result }
{
    let places = kept.places;
    let transitions = kept.transitions;
    let more = sets::with(places, p);
    KeptSets {
        places: more,
        transitions,
    }
}

// Adds what the lowest pending place draws in. Answers the marks then: 0 where no place was pending.
pub fn add(
    kept: &mut KeptSets,
    file: &[u8],
    h: Header,
    all: bool,
    both: &[u64; 16],
    head: &[u32],
    next: &[u32],
    gone: &mut [u64; 16],
    marks: u64,
) -> u64
    requires { (Sound file.now h × Rows file.now h head.now next.now) × Ready h marks kept.old.places kept.old.transitions gone.old }
    ensures { Stepped file.now h all both.now (result) kept.old.places kept.old.transitions gone.old kept.new.places kept.new.transitions gone.new }
{
    cut_search::step(
        file,
        h,
        all,
        both,
        head,
        next,
        gone,
        marks,
        &mut kept.places,
        &mut kept.transitions,
    )
}

// Adds until no place is pending.
fn grow(
    file: &[u8],
    h: Header,
    all: bool,
    both: &[u64; 16],
    head: &[u32],
    next: &[u32],
    gone: &mut [u64; 16],
    marks: u64,
    kept: KeptSets,
) -> KeptSets
    requires { (Sound file.now h × Rows file.now h head.now next.now) × Ready h marks kept.places kept.transitions gone.old }
    ensures { Finished file.now h all both.now kept.places kept.transitions gone.old result.places result.transitions }
{
    let mut sets = kept;
    let mut m = marks;
    while m != 0 {
        m = add(&mut sets, file, h, all, both, head, next, gone, m);
    }
    sets
}

// Goes through pending places until none is left. Places of `both`, or all, draw in what lowers them too.
pub fn close(
    file: &[u8],
    h: Header,
    all: bool,
    both: &[u64; 16],
    head: &[u32],
    next: &[u32],
    kept: KeptSets,
) -> KeptSets
    requires { (Sound file.now h × Rows file.now h head.now next.now) × Sets kept.places kept.transitions × ((k : ℕ) → T (member kept.places k) → k < h.places) }
    ensures { Closed file.now h all both.now kept.places kept.transitions result.places result.transitions }
{
    let mut gone = [0u64; 16];
    let marks = sets_pending::marks_below(h.places);
    grow(file, h, all, both, head, next, &mut gone, marks, kept)
}

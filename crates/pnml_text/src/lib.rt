#![tactic(auto)]

// The characters of a text in PNML, and what is read of it at once: words, white space, ids, digits.
ghost use Rattle.std.specs.Prelude.{◌≡◌, ◌+◌, ◌-◌, ◌*◌, ◌≤◌, length, drop};
ghost use Rattle.std.specs.List.{take_while};
ghost use Rattle.pnml_text.specs.Characters.{kind_of, goes_on};
ghost use Rattle.pnml_text.specs.Rest.{capped, digits, front, id, number_of, rest_at, spaces, word};

// The kinds of characters.
#[derive(Clone, Copy, Debug, PartialEq, Eq)]
pub enum Kind {
    Letter,
    Digit,
    Mark,
    Space,
    Other,
}

// The runs of characters that are read.
#[derive(Clone, Copy, Debug, PartialEq, Eq)]
pub enum Run {
    Spaces,
    Digits,
    Id,
}

// The kind of a character.
pub fn classify(b: u8) -> Kind
    ensures { result ≡ kind_of b }
{
    match b {
        b'A'..=b'Z' | b'a'..=b'z' => Kind::Letter,
        b'0'..=b'9' => Kind::Digit,
        b'-' | b'_' | b'.' => Kind::Mark,
        9 | 10 | 13 | 32 => Kind::Space,
        _ => Kind::Other,
    }
}

// Does a run go on with a character of this kind?
pub fn goes_on(of: Run, k: Kind) -> bool
    ensures { result ≡ goes_on of k }
{
    match of {
        Run::Spaces => matches!(k, Kind::Space),
        Run::Digits => matches!(k, Kind::Digit),
        Run::Id => matches!(k, Kind::Letter | Kind::Digit | Kind::Mark),
    }
}

// Does a run go on with this character?
fn takes(of: Run, b: u8) -> bool
    ensures { result ≡ goes_on of (kind_of b) }
{
    goes_on(of, classify(b))
}

// How long the run at the start is.
fn run_len(text: &[u8], of: Run) -> usize
    ensures { result ≡ length (take_while (λ b. goes_on of (kind_of b)) text.now) }
{
    text.iter().take_while(|b| takes(of, **b)).count()
}

// The end of the longest run from a position on. The part is cut off first: the library's skip passes over each byte before it.
pub fn run_end(text: &[u8], at: usize, of: Run) -> usize
    ensures { result ≡ at + length (front of (drop at text.now)) }
{
    if text.len() < at {
        return at;
    }
    at + run_len(&text[at..], of)
}

// A position past the text stands for `outside the profile`, as rest_at has it. No Option: a label's number and an arc's ends are told outside the profile too
// (Holds and HasEnds of pnml_page), so each step would take an Option and hand it on.

// After a word that has to stand at a position; past the text where it does not.
pub fn word(text: &[u8], at: usize, w: &[u8]) -> usize
    ensures { rest_at text.now result ≡ word w.now (rest_at text.now at) }
{
    let n = text.len();
    if n < at {
        return at;
    }
    if text[at..].starts_with(w) {
        at + w.len()
    } else {
        n + 1
    }
}

// After white space.
pub fn spaces(text: &[u8], at: usize) -> usize
    ensures { rest_at text.now result ≡ spaces (rest_at text.now at) }
{
    run_end(text, at, Run::Spaces)
}

// After an id.
pub fn id(text: &[u8], at: usize) -> usize
    ensures { rest_at text.now result ≡ id (rest_at text.now at) }
{
    let end = run_end(text, at, Run::Id);
    let n = end - at;
    if (n == 0) | (32 < n) {
        return text.len() + 1;
    }
    end
}

// After digits.
pub fn digits(text: &[u8], at: usize) -> usize
    ensures { rest_at text.now result ≡ digits (rest_at text.now at) }
{
    let end = run_end(text, at, Run::Digits);
    if end == at {
        return text.len() + 1;
    }
    end
}

// A number with one more digit; past every limit it stays where it is.
fn push(n: usize, digit: u8) -> usize
    requires { n ≤ 4294967296 }
    ensures { (result ≡ capped (10 * n + (digit - 48))) × (result ≤ 4294967296) }
{
    (10 * n + usize::from(digit.saturating_sub(b'0'))).min(4294967296)
}

// The number that the digits from a position on write.
pub fn number(text: &[u8], at: usize) -> usize
    ensures { result ≡ number_of (rest_at text.now at) }
{
    let mut n = 0;
    for a in at..text.len() {
        if !takes(Run::Digits, text[a]) {
            return n;
        }
        n = push(n, text[a]);
    }
    n
}

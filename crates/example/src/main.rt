#![tactic(auto)]

// The public calls from Rattle, on the small kerb of paper 01: the safety cut for place 2, its check, a run with its shadow.
ghost use Rattle.std.specs.Prelude.{◌≡◌};
ghost use Rattle.promise.specs.Example.{small_plan};

use checker::Outcome;
use refusals::Refusal;
use shadow::Shadow;
use slice::Written;

fn kerb() -> [u8; 108]
    ensures { result ≡ small_plan }
{
    *b"\x02\0\0\0\x01\0\0\0\0\0\0\0\0\0\0\0\0\0\0\0\0\0\0\0\0\0\x01\0\0\0\0\0\x01\0\x01\0\0\0\x01\0\x02\0\x01\0\x01\0\0\0\x02\0\x01\0\x01\0\x01\0\x01\0\x01\0\x01\0\x01\0\x03\0\x01\0\x02\0\0\0\x03\0\x02\0\x02\0\x01\0\x04\0\x01\0\x03\0\0\0\0\0\x01\0\x5c\0\0\0\x05\0\x04\0\x09\0\0\x01BELL"
}

fn say(text: &[u8], n: u32) {
    io::write_all(1, text);
    io::print_decimal(1, n as u64);
    io::write_all(1, b"\n");
}

fn checked(plan: &[u8], slice: &[u8]) {
    let Ok(v) = call_check::verdicts::check(plan, slice, &[2]) else {
        return say(b"not accepted for place ", 2);
    };
    match v.outcome {
        Outcome::Accepted => say(b"accepted for place ", 2),
        _ => say(b"not accepted for place ", 2),
    }
}

fn followed(plan: &[u8], slice: &[u8]) {
    let mut marking = [0u64; 5];
    let mut out = [0u16; 3];
    let s = call_firing::shadows::shadow(plan, slice, &[3, 0, 1], &mut marking, &mut out);
    match s {
        Ok(Shadow::Fired(n)) => say(b"fired; transitions in its shadow: ", n),
        Ok(Shadow::Short(i, _, _, _)) => say(b"stuck at index ", i),
        Ok(Shadow::Full(i, _, _, _)) => say(b"full at index ", i),
        Err(e) => say(b"refused ", e.number()),
    }
}

// What the cut answered, its slice being at the start of the buffer.
fn told(c: Result<Written, Refusal>, plan: &[u8], buffer: &[u8]) {
    let Ok(w) = c else {
        return;
    };
    say(b"bytes of the safety cut for place 2: ", w.length);
    let end = io::count(w.length as isize, buffer);
    checked(plan, &buffer[..end]);
    followed(plan, &buffer[..end]);
}

fn main() {
    let plan = kerb();
    let mut buffer = io::buffer();
    let c = call_cuts::cuts::safety(&plan, &[2], &mut buffer);
    told(c, &plan, &buffer);
}

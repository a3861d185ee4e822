// The rooms that include/nesfoal.h says always suffice: with them no call answers 13.
ghost use Rattle.std.specs.Prelude.{◌≡◌, ◌≢◌, length};
ghost use Rattle.slice.specs.Kept.{cut_numbers};
ghost use Rattle.run_cut.specs.Told.{run_numbers};
ghost use Rattle.replay.specs.Told.{outcome_numbers};
ghost use Rattle.shadow.specs.Told.{shadow_numbers};
ghost use Rattle.together.specs.Told.{together_numbers};

use refusals::Refusal;
use replay::Outcome;
use run_cut::RunCut;
use shadow::Shadow;
use slice::Written;
use together::Together;

// 1,024 entries for the marking.
pub fn replay(file: &[u8], list: &[u16], marking: &mut [u64]) -> Result<Outcome, Refusal>
    ensures { length marking.old ≡ 1024 → (outcome_numbers result).refusal ≢ 13 }
{
    call_firing::replays::replay(file, list, marking)
}

// 1,024 entries for the marking, 65,535 for the shadow.
pub fn shadow(
    plan: &[u8],
    slice: &[u8],
    list: &[u16],
    marking: &mut [u64],
    out: &mut [u16],
) -> Result<Shadow, Refusal>
    ensures { length marking.old ≡ 1024 → length out.old ≡ 65535 → (shadow_numbers result).run.refusal ≢ 13 }
{
    call_firing::shadows::shadow(plan, slice, list, marking, out)
}

// 1,024 entries for what is left.
pub fn together(
    plan: &[u8],
    transition: super::takings::Number,
    marking: &[u64],
    rest: &mut [u64],
) -> Result<Together, Refusal>
    ensures { length rest.old ≡ 1024 → (together_numbers result).refusal ≢ 13 }
{
    call_firing::takings::together(plan, transition, marking, rest)
}

// 45,072 bytes for a slice.
pub fn safety(plan: &[u8], criterion: &[u16], buffer: &mut [u8]) -> Result<Written, Refusal>
    ensures { length buffer.old ≡ 45072 → (cut_numbers result).refusal ≢ 13 }
{
    call_cuts::cuts::safety(plan, criterion, buffer)
}

pub fn branching(plan: &[u8], criterion: &[u16], buffer: &mut [u8]) -> Result<Written, Refusal>
    ensures { length buffer.old ≡ 45072 → (cut_numbers result).refusal ≢ 13 }
{
    call_cuts::cuts::branching(plan, criterion, buffer)
}

// 45,072 bytes for the slice, 65,535 entries for the positions.
pub fn run_cut(
    plan: &[u8],
    criterion: &[u16],
    list: &[u16],
    buffer: &mut [u8],
    positions: &mut [u16],
) -> Result<RunCut, Refusal>
    ensures { length buffer.old ≡ 45072 → length positions.old ≡ 65535 → (run_numbers result).refusal ≢ 13 }
{
    call_cuts::recorded::run_cut(plan, criterion, list, buffer, positions)
}

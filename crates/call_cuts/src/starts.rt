// The two static cuts of a plan, from a lent marking.
ghost use Rattle.std.specs.Prelude.{◌≡◌, length};
ghost use Rattle.file_header.specs.declared.Due.TheVariants.{Plan};
ghost use Rattle.promise.specs.Exactness.{WritesExact};
ghost use Rattle.promise.specs.Starts.{net_at, started, from_refusal, cut_unless, left_unless, safety_from_answer, safety_from_buffer, branching_from_answer, branching_from_buffer, AcceptsFrom};
ghost use Rattle.promise.specs.Promise.{WritesSmallest};
ghost use Rattle.slice.specs.Kept.{cut_numbers};
ghost use Rattle.call_cuts.specs.Kinds.{answer_by, buffer_by};

use cut::Kind;
use file_header::Due;
use refusals::Refusal;
use slice::Written;

// Either cut.
fn cut_from(
    plan: &[u8],
    start: &[u64],
    criterion: &[u16],
    kind: Kind,
    buffer: &mut [u8],
) -> Result<Written, Refusal>
    ensures result_value { cut_numbers result ≡ cut_unless (from_refusal Plan plan.now start.now) (answer_by kind (started plan.now start.now) criterion.now (length buffer.old)) }
    ensures buffer_after { buffer.new ≡ left_unless (from_refusal Plan plan.now start.now) (buffer_by kind (started plan.now start.now) criterion.now buffer.old) buffer.old }
{
    let read = file::read(plan, Due::Plan);
    let Ok(h) = read else {
        return Err(read.unwrap_err());
    };
    inputs_starts::check(plan, h, start)?;
    inputs_criterion::check(criterion, h.places)?;
    starting::cuts::cut(plan, h, start, criterion, kind, buffer)
}

// The safety cut: writes the smallest slice that the check accepts for the plan and the criterion, both from the start.
pub fn safety_from(
    plan: &[u8],
    start: &[u64],
    criterion: &[u16],
    buffer: &mut [u8],
) -> Result<Written, Refusal>
    ensures answer { cut_numbers result ≡ safety_from_answer plan.now start.now criterion.now (length buffer.old) }
    ensures buffer { buffer.new ≡ safety_from_buffer plan.now start.now criterion.now buffer.old }
    ensures smallest { WritesSmallest (λ S. AcceptsFrom plan.now start.now S criterion.now) (cut_numbers result) buffer.new }
{
    cut_from(plan, start, criterion, Kind::Safety, buffer)
}

// The branching cut: writes a slice that is exact on all its places, the smallest of those that the check from the start accepts and that keep whatever changes a kept place.
pub fn branching_from(
    plan: &[u8],
    start: &[u64],
    criterion: &[u16],
    buffer: &mut [u8],
) -> Result<Written, Refusal>
    ensures answer { cut_numbers result ≡ branching_from_answer plan.now start.now criterion.now (length buffer.old) }
    ensures buffer { buffer.new ≡ branching_from_buffer plan.now start.now criterion.now buffer.old }
    ensures exact { WritesExact (λ S. AcceptsFrom plan.now start.now S criterion.now) (net_at plan.now start.now) (cut_numbers result) buffer.new }
{
    cut_from(plan, start, criterion, Kind::Branching, buffer)
}

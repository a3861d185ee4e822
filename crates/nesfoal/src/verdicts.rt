// Whether a slice is accepted for a plan and a criterion, or the first rule that it breaks.
ghost use Rattle.std.specs.Prelude.{◌≡◌};
ghost use Rattle.net.specs.Guarantee.{Guarantee};
ghost use Rattle.file.specs.Layout.{net_of, slice_of};
ghost use Rattle.file.specs.Criterion.{criterion_of};
ghost use Rattle.promise.specs.Calls.{checked, checked_bytes};
ghost use Rattle.promise.specs.Starts.{net_at, checked_from};

// Check, the criterion as 2 bytes a place, low byte first: 0 accepted, 1 to 10 or 16 a refusal, 100 plus the rule otherwise.
pub fn nesfoal_check(plan: &[u8], slice: &[u8], q: &[u8]) -> u32
    ensures answer { result ≡ checked_bytes plan.now slice.now q.now }
    ensures guarantee { result ≡ 0 → Guarantee (net_of plan.now) (slice_of slice.now) (criterion_of q.now) }
{
    call_check::verdicts::check_bytes(plan, slice, q)
}

// Check, the criterion as numbers; the place or transition that breaks the rule goes to `to`, 0 where there is none.
pub fn nesfoal_verdict(plan: &[u8], slice: &[u8], q: &[u16], to: &mut u32) -> u32
    ensures answer { result ≡ (checked plan.now slice.now q.now).code }
    ensures number { to.new ≡ (checked plan.now slice.now q.now).number }
    ensures guarantee { result ≡ 0 → Guarantee (net_of plan.now) (slice_of slice.now) q.now }
{
    let v = call_check::verdicts::check(plan, slice, q);
    *to = checker::number(v);
    checker::code(v)
}

// Check from a lent marking, against which rule 3 compares.
pub fn nesfoal_verdict_from(
    plan: &[u8],
    slice: &[u8],
    start: &[u64],
    q: &[u16],
    to: &mut u32,
) -> u32
    ensures answer { result ≡ (checked_from plan.now slice.now start.now q.now).code }
    ensures number { to.new ≡ (checked_from plan.now slice.now start.now q.now).number }
    ensures guarantee { result ≡ 0 → Guarantee (net_at plan.now start.now) (slice_of slice.now) q.now }
{
    let v = call_check::starts::check_from(plan, slice, start, q);
    *to = checker::number(v);
    checker::code(v)
}

// The same from C's two calls alone, the criterion handed to the check as bytes.
ghost use Rattle.std.specs.Prelude.{◌≡◌, true, ◌↔◌, ◌%◌, length};
ghost use Rattle.file.specs.Layout.{slice_of};
ghost use Rattle.file.specs.Criterion.{criterion_of};
ghost use Rattle.promise.specs.Calls.{safety_answer, checked_bytes};

// The safety cut for the places of the criterion, then the check of what it wrote with the same criterion as bytes, q.
pub fn c_safety_checked(plan: &[u8], criterion: &[u16], q: &[u8], buffer: &mut [u8]) -> u32
    ensures { length q.now % 2 ≡ 0 → criterion.now ≡ criterion_of q.now → result ≡ (safety_answer plan.now criterion.now (length buffer.old)).refusal }
{
    let mut long: u32 = 0;
    let mut places: u32 = 0;
    let mut transitions: u32 = 0;
    let refusal = nesfoal::cuts::nesfoal_safety(
        plan,
        criterion,
        buffer,
        &mut long,
        &mut places,
        &mut transitions,
    );
    if refusal != 0 {
        return refusal;
    }
    let end = long as usize;
    nesfoal::verdicts::nesfoal_check(plan, &buffer[..end], q)
}

// Whether the check accepts a slice that has so many places and transitions. It is not asked where the safety cut has more.
pub fn c_accepted(
    plan: &[u8],
    criterion: &[u16],
    q: &[u8],
    slice: &[u8],
    places: u32,
    transitions: u32,
    buffer: &mut [u8],
) -> bool
    ensures { length q.now % 2 ≡ 0 → criterion.now ≡ criterion_of q.now → places ≡ (slice_of slice.now).net.places → transitions ≡ (slice_of slice.now).net.transitions → (result ≡ true) ↔ (checked_bytes plan.now slice.now q.now ≡ 0) }
{
    let mut long: u32 = 0;
    let mut cut_places: u32 = 0;
    let mut cut_transitions: u32 = 0;
    let refusal = nesfoal::cuts::nesfoal_safety(
        plan,
        criterion,
        buffer,
        &mut long,
        &mut cut_places,
        &mut cut_transitions,
    );
    if refusal != 0 {
        return nesfoal::verdicts::nesfoal_check(plan, slice, q) == 0;
    }
    if places < cut_places {
        return false;
    }
    if transitions < cut_transitions {
        return false;
    }
    nesfoal::verdicts::nesfoal_check(plan, slice, q) == 0
}

// The arcs of a transition, from either of two files.
ghost use Rattle.std.specs.Prelude.{◌≡◌, length};
ghost use Rattle.promise.specs.Firing.{arc_run, arc_start};

// Arcs: the run's length in bytes; where it starts in the file named goes to `start`, 0 where the run is empty.
pub fn nesfoal_arcs(
    plan: &[u8],
    slice: &[u8],
    inslice: bool,
    transition: u32,
    start: &mut u32,
) -> u32
    ensures answer { result ≡ length (arc_run plan.now slice.now inslice transition) }
    ensures start { start.new ≡ arc_start plan.now slice.now inslice transition }
{
    let r = call_firing::runs::arc_part(plan, slice, inslice, transition);
    *start = r.start;
    r.length
}

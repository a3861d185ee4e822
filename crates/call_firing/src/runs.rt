// The arcs of a transition, from either of two files.
ghost use Rattle.std.specs.Prelude.{◌≡◌, [], length};
ghost use Rattle.promise.specs.Firing.{arc_run, arc_start};

use file_header::Due;

// The empty part of the file named.
fn no_run<'a>(plan: &'a [u8], slice: &'a [u8], inslice: bool) -> &'a [u8]
    ensures { result.now ≡ [] }
{
    if inslice {
        return &slice[..0];
    }
    &plan[..0]
}

// The run of arcs: a part of the slice where `inslice` holds, else of the plan. It is empty where either file is refused,
// the number is unknown in the file named, or the transition has no arcs there.
pub fn arcs<'a>(plan: &'a [u8], slice: &'a [u8], inslice: bool, transition: u32) -> &'a [u8]
    ensures { result.now ≡ arc_run plan.now slice.now inslice transition }
{
    let Ok(p) = file::read(plan, Due::Plan) else {
        return no_run(plan, slice, inslice);
    };
    let Ok(s) = file::read(slice, Due::Slice) else {
        return no_run(plan, slice, inslice);
    };
    let t = transition as usize;
    if inslice {
        return arcs_effect::run(slice, s, t);
    }
    arcs_effect::run(plan, p, t)
}

// Where that run stands in the file named, in bytes; 0 and 0 where it is empty.
#[derive(Clone, Copy, Debug, PartialEq, Eq)]
pub struct Part {
    pub start: u32,
    pub length: u32,
}

pub fn arc_part(plan: &[u8], slice: &[u8], inslice: bool, transition: u32) -> Part
    ensures start { result.start ≡ arc_start plan.now slice.now inslice transition }
    ensures length { result.length ≡ length (arc_run plan.now slice.now inslice transition) }
{
    let Ok(p) = file::read(plan, Due::Plan) else {
        return Part {
            start: 0,
            length: 0,
        };
    };
    let Ok(s) = file::read(slice, Due::Slice) else {
        return Part {
            start: 0,
            length: 0,
        };
    };
    let t = transition as usize;
    if inslice {
        let r = arcs_effect::run_part(slice, s, t);
        let start = r.start as u32;
        let length = r.length as u32;
        return Part { start, length };
    }
    let r = arcs_effect::run_part(plan, p, t);
    let start = r.start as u32;
    let length = r.length as u32;
    Part { start, length }
}

// Replay on a net that may have caps: the inputs of each firing are tested first, then the caps.
ghost use Rattle.replay_steps.specs.Steps.{Ready};
ghost use Rattle.replay.specs.Steps.{Going, EndedFrom};

use crate::Outcome;
use file_arcs::arc;
use file_header::Header;
use replay_firing::{add_up, fire_capped, missing};
use tables::entry;

// Fires the listed transitions in turn, after those that are done, until one is not enabled.
pub fn run_capped(
    file: &[u8],
    h: Header,
    table: &[u16],
    list: &[u16],
    done: usize,
    marking: &mut [u64],
) -> Outcome
    requires ready { Ready file.now h table.now marking.old }
    requires going { Going file.now h list.now marking.old done marking.old done }
    ensures { EndedFrom file.now h list.now marking.old done marking.new result }
{
    // the label is the way out of both loops, with the index and the place of the firing that is not enabled
    'firings: {
        for k in done..list.len() {
            let t = list[k] as usize;
            let from = entry(table, 2 * t);
            let middle = entry(table, 2 * t + 1);
            let mut last: usize = 65536;
            let mut need: u64 = 0;
            for j in from..middle {
                let a = arc(file, h.arcstart + 8 * j);
                let p = a.place;
                need = add_up(p, a.weight, last, need);
                last = p;
                let count = marking[p];
                if count < need {
                    let index = k as u32;
                    let place = p as u32;
                    let amount = missing(file, h, j, need, count);
                    break 'firings Outcome::Short(index, place, amount);
                }
            }
            if let Some(e) = fire_capped(file, h, table, t, marking) {
                let index = k as u32;
                break 'firings Outcome::Full(index, e.place, e.tokens);
            }
        }
        Outcome::Fired
    }
}

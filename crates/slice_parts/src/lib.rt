#![tactic(auto)]

// The parts of the body of a slice file that are not its arcs: places, origins.
ghost use Rattle.std.specs.Prelude.{◌≡◌, ℕ, ◌+◌, ◌*◌, ◌<◌, ◌≤◌, length, get_or};
ghost use Rattle.std.proofs.lemmas.List.Edits.{sets};
ghost use Rattle.file_header.specs.Facts.{Placed};
ghost use Rattle.file_header.specs.Layout.{places_length};
ghost use Rattle.file.specs.Layout.{net_from};
ghost use Rattle.file_writing.specs.Writing.{origins_bytes};
ghost use Rattle.slice_parts.specs.Places.{kept_place_bytes};

use file_header::Header;

// Writes the kept places in the plan's edition.
pub fn write_places(plan: &[u8], h: Header, ps: &[u16], buffer: &mut [u8])
    requires placed { Placed (length plan.now) h }
    requires by_index { (i : ℕ) → i < length ps.now → get_or ps.now i 0 < h.places }
    requires ps_in_bounds { places_length h.edition (length ps.now) ≤ length buffer.old }
    ensures { buffer.new ≡ sets buffer.old 0 (kept_place_bytes h.edition (net_from plan.now h) ps.now) }
{
    for (i, x) in ps.iter().enumerate() {
        let p = *x as usize;
        let tokens = file::marking(plan, h, p);
        let most = file::cap(plan, h, p);
        slice_put::put_place(h.edition, i, tokens, most, buffer);
    }
}

// Writes a table of origins.
pub fn write_origins(list: &[u16], start: usize, buffer: &mut [u8])
    requires { start + 2 * length list.now ≤ length buffer.old }
    ensures { buffer.new ≡ sets buffer.old start (origins_bytes list.now) }
{
    for (i, x) in list.iter().enumerate() {
        slice_put::put16(buffer, start + 2 * i, *x as usize);
    }
}

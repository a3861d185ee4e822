// A running marking carried from an old plan to a new one.
ghost use Rattle.std.specs.Prelude.{◌≡◌, length};
ghost use Rattle.promise.specs.Transfer.{transfer_answer, transfer_marking, Carried};

// 0, or the number of a refusal.
pub fn nesfoal_transfer(
    old: &[u8],
    new: &[u8],
    running: &[u64],
    table: &[u16],
    marking: &mut [u64],
) -> u32
    ensures answer { result ≡ transfer_answer old.now new.now running.now table.now (length marking.old) }
    ensures marking { marking.new ≡ transfer_marking old.now new.now running.now table.now marking.old }
    ensures carried { result ≡ 0 → Carried new.now running.now table.now marking.new }
{
    match call_plans::transfers::transfer(old, new, running, table, marking) {
        Ok(()) => 0,
        Err(e) => e.number(),
    }
}

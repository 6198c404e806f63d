ghost use Rattle.std.specs.Prelude.{◌≡◌, ◌≤◌, true, length, take};
ghost use Rattle.arena.specs.Layout.{total, packed};

mod methods;

use crate::records::Record;

// The two memories handed in, and how much of each is in use. The counts lie beside them, since what is lent has a length of its own.
#[derive(Drop)]
pub struct Memory<'a> {
    pub literals: &'a mut [i16],
    pub records: &'a mut [Record],
    pub count: usize,
    pub used: usize,
    ghost few: { count ≤ length records.now },
    ghost room: { used ≤ length literals.now },
    ghost below: { used ≤ 16384 },
    ghost sum: { total (take count records.now) ≡ used },
    ghost packs: { packed 0 (take count records.now) ≡ true },
}

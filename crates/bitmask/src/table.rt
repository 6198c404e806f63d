ghost use Rattle.std.specs.Prelude.{◌≡◌, ◌≤◌, true};
ghost use Rattle.arrayvec.specs.ArrayVec.{array_vec_len};
ghost use Rattle.words.specs.Standing.{ordered, literals};
ghost use Rattle.bitmask.specs.Slots.{entries};

use crate::slot::Slot;
use arrayvec::ArrayVec;

// A clause database of up to 256 slots, by rising number. `total` is the count of their literals.
#[derive(Drop)]
pub struct Bitmask {
    pub(crate) slots: ArrayVec<Slot, 256>,
    pub(crate) total: usize,
    ghost few: { array_vec_len slots ≤ 256 },
    ghost kept: { ordered 64 64 0 (entries slots.items) ≡ true },
    ghost summed: { literals (entries slots.items) ≡ total },
}

ghost use Rattle.std.specs.Prelude.{◌≡◌};
ghost use Rattle.loading.specs.Meanings.{formula_variables};

use crate::counts::Header;
use arrayvec::ArrayVec;
use loading::Loading;

// The lists of a formula while they are read: its header, the literals since the last 0, at most 1,024, and the session that the
// lists go to.
#[derive(Drop)]
pub struct Lists {
    pub header: Header,
    pub pending: ArrayVec<i16, 1024>,
    pub session: Loading,
    ghost opened: { formula_variables session ≡ header.counts.variables },
}

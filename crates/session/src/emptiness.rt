// Whether the empty clause stands.
ghost use Rattle.std.specs.Prelude.{◌≡◌};
ghost use Rattle.rules.specs.Runs.{empty_stands};

use database::{ClauseDatabase, standing};

// 1 if the empty clause stands, else 0.
pub(crate) fn empty_stands<D: ClauseDatabase>(db: &D) -> u8
    ensures { result ≡ empty_stands (D.standing db.now) }
{
    let empty = standing(db).any(|entry| entry.clause.literals().is_empty());
    u8::from(empty)
}

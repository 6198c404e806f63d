// What is loaded again onto a second arena, and what is compared there.
ghost use Rattle.std.specs.Prelude.{◌≡◌, true, [], take, vec_len, IfOk};
ghost use Rattle.reader.specs.Formulas.{read_text};
ghost use Rattle.commissioning.specs.Compared.{LoadedAgain, Meets, SameAgain};

use database::ClauseDatabase;
use memory::ArenaMemory;
use reader::read_formula;
use reconstruction::ReconstructionStack;
use session::{Finished, seal};
use std::alloc::{AllocError, Global};

// The memory of a second arena, and two buffers for texts.
#[derive(Drop)]
pub struct Spare {
    pub arena: ArenaMemory,
    pub text: Vec<u8>,
    pub again: Vec<u8>,
}

impl Spare {
    // As much as an arena uses at most, and as long as a text may be.
    pub fn full_size(heap: Global) -> Result<Spare, AllocError>
        ensures literals { IfOk result (λ s. vec_len s.arena.literals ≡ 16384) }
        ensures records { IfOk result (λ s. vec_len s.arena.records ≡ 1024) }
        ensures text { IfOk result (λ s. vec_len s.text ≡ 65536) }
        ensures again { IfOk result (λ s. vec_len s.again ≡ 65536) }
    {
        Ok(Spare {
            arena: ArenaMemory::full_size(heap)?,
            text: vec![in heap; 0u8; 65_536]?,
            again: vec![in heap; 0u8; 65_536]?,
        })
    }
}

// A formula that was loaded again and finished at once, and how many lists it has.
#[derive(Drop)]
pub struct Again {
    pub finished: Finished,
    pub lists: u16,
}

// Whether what is compared with a formula that was loaded again is so, and how many lists that has. Both are printed: how
// many lists there are also where the comparison does not hold.
#[derive(Clone, Copy, Default)]
pub struct Comparison {
    pub holds: bool,
    pub lists: u16,
}

// Loads a formula onto an empty database and finishes at once.
fn load_again<D: ClauseDatabase>(formula: &[u8], db: &mut D) -> Option<Again>
    ensures answer { LoadedAgain (read_text (D.limited db.old) (D.standing db.old) [] formula.now) result }
    ensures entries { D.standing db.new ≡ (read_text (D.limited db.old) (D.standing db.old) [] formula.now).entries }
{
    let stack = ReconstructionStack::new(&mut [], &mut []);
    let loading = read_formula(formula, db, &stack).ok()?;
    let lists = loading.loaded();
    let (finished, _) = seal(loading).finish(db);
    Some(Again { finished, lists })
}

// Whether the first bytes of a buffer are this text.
fn is_written<'a>(buffer: &'a [u8], len: usize, text: &'a [u8]) -> bool
    ensures { result ≡ true → take len buffer.now ≡ text.now }
{
    buffer.get(..len) == Some(text)
}

// Whether a text, read onto a second database and written again, has the same bytes.
pub fn same_again<D: ClauseDatabase>(text: &[u8], db: &mut D, again: &mut [u8]) -> Comparison
    ensures { SameAgain (read_text (D.limited db.old) (D.standing db.old) [] text.now) text.now result }
{
    let Some(Again { finished, lists }) = load_again(text, db) else {
        return Comparison::default();
    };
    let holds = finished
        .write(db, again)
        .is_ok_and(|len| is_written(again, len, text));
    Comparison { holds, lists }
}

// Whether a position meets every clause of the formula, which is loaded again.
pub fn meets_formula<D: ClauseDatabase>(
    formula: &[u8],
    db: &mut D,
    position: &mut [u8],
) -> Comparison
    ensures met { Meets (read_text (D.limited db.old) (D.standing db.old) [] formula.now) position.old result }
    ensures same { position.new ≡ position.old }
{
    let stack = ReconstructionStack::new(&mut [], &mut []);
    let Some(Again { finished, lists }) = load_again(formula, db) else {
        return Comparison::default();
    };
    // with nothing saved, restoring only looks whether each clause is met
    let holds = finished.restore(db, &stack, position).is_ok();
    Comparison { holds, lists }
}

// Reading a whole formula.
ghost use Rattle.std.specs.Prelude.{◌≡◌};
ghost use Rattle.rules.specs.Restoring.{Room};
ghost use Rattle.reconstruction.specs.Meanings.{saved};
ghost use Rattle.reader.specs.Scanning.{rest_of, words_of};
ghost use Rattle.reader.specs.Formulas.{read_words, read_rest, read_text};
ghost use Rattle.reader.specs.Sessions.{reading, Ends};
ghost use Rattle.reader.specs.Loads.{formula_history, LeadsToAnswer};
ghost use Rattle.reader.specs.Tokens.{last_line};

use crate::counts::Header;
use crate::lists::Lists;
use crate::scan::last_line;
use crate::scanner::Scanner;
use database::ClauseDatabase;
use loading::{Loading, open};
use reconstruction::ReconstructionStack;
use words::{File, FileFault, LocatedFault};

// Reads the words to come in a text, and loads their lists. Only where the text ends too early is its last line looked for.
fn read_lists<D: ClauseDatabase>(
    words: Scanner<'_>,
    text: &[u8],
    mut lists: Lists,
    db: &mut D,
) -> Result<Loading, LocatedFault>
    ensures outcome { Ends (read_words (D.limited db.old) lists.header.counts (last_line text.now) (reading lists (D.standing db.old)) (words_of words.entry)) result (D.standing db.new) }
    ensures limits { D.limited db.new ≡ D.limited db.old }
{
    for (line, word) in words {
        lists
            .read_word(word, db)
            .map_err(|fault| fault.at(File::Formula, line))?;
    }
    lists
        .end()
        .map_err(|fault| fault.at(File::Formula, last_line(text)))
}

// Opens a session for a header and reads what is left of the text behind it.
fn read_rest<D: ClauseDatabase>(
    scanner: Scanner<'_>,
    text: &[u8],
    header: Header,
    db: &mut D,
    stack: &ReconstructionStack<'_>,
) -> Result<Loading, LocatedFault>
    ensures outcome { Ends (read_rest (D.limited db.old) (D.standing db.old) (saved stack.now) text.now header.counts (rest_of scanner.entry)) result (D.standing db.new) }
    ensures limits { D.limited db.new ≡ D.limited db.old }
{
    let opened = open(header.counts.variables, db, stack);
    let session = opened.map_err(|fault| FileFault::from(fault).at(File::Formula, 0))?;
    read_lists(scanner, text, Lists::new(header, session), db)
}

// Reads a formula of DIMACS CNF text: opens a session after the header and loads the lists, up to the end or the first fault.
// What was loaded before a fault stays. The history that the text makes leads to the session and to what stands then.
pub fn read_formula<D: ClauseDatabase>(
    text: &[u8],
    db: &mut D,
    stack: &ReconstructionStack<'_>,
) -> Result<Loading, LocatedFault>
    ensures outcome { Ends (read_text (D.limited db.old) (D.standing db.old) (saved stack.now) text.now) result (D.standing db.new) }
    ensures limits { D.limited db.new ≡ D.limited db.old }
    ensures history { (room : Room) → LeadsToAnswer (D.limited db.old) room (formula_history (D.limited db.old) (D.standing db.old) (saved stack.now) text.now) result (D.standing db.old) (D.standing db.new) (saved stack.now) }
{
    if text.len() > 65_536 {
        return Err(FileFault::TooManyBytes.at(File::Formula, 0));
    }
    let mut scanner = Scanner::over(text);
    let header = scanner.header(text)?;
    read_rest(scanner, text, header, db, stack)
}

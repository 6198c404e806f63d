// Reading the header of a formula.
ghost use Rattle.std.specs.Prelude.{◌≡◌, ◌<◌, false, length, IfOk, OnOk, Some};
ghost use Rattle.words.specs.Checks.{fault_of, inside};
ghost use Rattle.reader.specs.Headers.{uncommented, first_counts, header_counts, two_counts, announced_clauses, header_fault, past_line};
ghost use Rattle.reader.specs.Tokens.{line_before};
ghost use Rattle.reader.specs.Scanning.{rest_of};
ghost use Rattle.reader.specs.Formulas.{located};

use crate::counts::{Counts, Header};
use crate::numeral::unsigned_number;
use crate::parts::split_once;
use crate::scanner::Scanner;
use words::{File, FileFault, LocatedFault};

// Two numbers with a space between them.
fn read_counts(bytes: &[u8]) -> Option<Counts>
    ensures { result ≡ two_counts bytes.now }
{
    let (variables, clauses) = split_once(b' ', bytes)?;
    Some(Counts {
        variables: unsigned_number(variables)?,
        clauses: unsigned_number(clauses)?,
    })
}

// The counts of a line without its line feed, if it is a header.
fn read_line(line: &[u8]) -> Option<Counts>
    ensures { result ≡ header_counts line.now }
{
    read_counts(line.strip_prefix(b"p cnf ")?)
}

// The counts of the header with which a text begins, if it does.
fn first_counts(text: &[u8]) -> Option<Counts>
    ensures { result ≡ first_counts text.now }
{
    let (line, _) = split_once(b'\n', text)?;
    read_line(line)
}

impl TryFrom<Counts> for Header {
    type Error = FileFault;

    ghost try_from_gives = { λ counts r. (fault_of r ≡ header_fault (Some counts)) × IfOk r (λ header. header.counts ≡ counts) };

    fn try_from(counts: Counts) -> Result<Header, FileFault> {
        if counts.variables > 512 || counts.clauses > 1024 {
            return Err(FileFault::HeaderBeyond);
        }
        Ok(Header { counts })
    }
}

impl Scanner<'_> {
    // Goes behind the line feed of this line, or to the end of the text.
    fn skip_line(&mut self)
        ensures rest { rest_of self.new ≡ past_line self.old.line self.old.rest.now }
        ensures onward { 0 < length self.old.rest.now → length self.new.rest.now < length self.old.rest.now }
    {
        match split_once(b'\n', self.rest) {
            Some((_, rest)) => {
                self.line += 1;
                self.rest = rest;
            }
            None => self.rest = &[],
        }
    }

    // Goes behind the comments that stand here.
    fn skip_comments(&mut self)
        ensures { rest_of self.new ≡ uncommented false self.old.line self.old.rest.now }
    {
        // A `while`: where the next comment begins is known only behind this one.
        while self.rest.starts_with(b"c") {
            self.skip_line();
        }
    }

    // Goes behind the comments and the header of this text, and gives it. The text stays beside the scanner, for the line of its end.
    pub(crate) fn header(&mut self, text: &[u8]) -> Result<Header, LocatedFault>
        ensures fault { fault_of result ≡ inside (located (line_before text.now (uncommented false self.old.line self.old.rest.now))) (header_fault (first_counts (uncommented false self.old.line self.old.rest.now).bytes)) }
        ensures counts { IfOk result (λ header. first_counts (uncommented false self.old.line self.old.rest.now).bytes ≡ Some header.counts) }
        ensures rest { OnOk result (rest_of self.new ≡ past_line (uncommented false self.old.line self.old.rest.now).line (uncommented false self.old.line self.old.rest.now).bytes) }
    {
        self.skip_comments();
        let line = self.here(text);
        let header = first_counts(self.rest)
            .ok_or(FileFault::HeaderMalformed)
            .and_then(Header::try_from)
            .map_err(|fault| fault.at(File::Formula, line))?;
        self.skip_line();
        Ok(header)
    }
}

// The count of clauses that the header of a formula announces, also where it is more than a formula may have.
pub fn announced(text: &[u8]) -> Option<u32>
    ensures { result ≡ announced_clauses text.now }
{
    if text.len() > 65_536 {
        return None;
    }
    let mut scanner = Scanner::over(text);
    scanner.skip_comments();
    let counts = first_counts(scanner.rest)?;
    Some(counts.clauses)
}

// Rows of tables, each held to the whole printout. Five loops over rows that differ in what a row holds; a closure for it would be
// longer.
use crate::printout::Program;
use std::process::Abort;
use std::test::Fail;

// The line of names, the first of every trace.
pub const NAMES: &str = "kind clause pivot first second\n";

// Four variables and five lists, of which the last has an opposite pair: the formula below most lines of the tables.
pub const LISTING: &str = "p cnf 4 5\n1 2 0\n-1 3 0\n-2 3 0\n-3 4 0\n2 -2 0\n";

impl<R: Abort> Program<'_, R> {
    // The two files are refused with this row.
    pub fn refuses(
        &mut self,
        formula: &str,
        trace: &str,
        row: &str,
        what: &str,
    ) -> Result<(), Fail> {
        let expected = format!(in self.heap; "file line refusal\n{row}\n")?;
        self.prints(formula, trace, expected.as_str(), what)
    }

    // The two files are accepted; the counts and the text are printed.
    pub fn accepts(
        &mut self,
        formula: &str,
        trace: &str,
        printed: &str,
        what: &str,
    ) -> Result<(), Fail> {
        let expected = format!(in self.heap; "accepted standing empty\n{printed}")?;
        self.prints(formula, trace, expected.as_str(), what)
    }

    // Of each row: the formula is refused so.
    pub fn formulas_refused(&mut self, table: &[(&str, &str)]) -> Result<(), Fail> {
        for (formula, row) in table {
            self.refuses(formula, NAMES, row, formula)?;
        }
        Ok(())
    }

    // Of each row: below the listing, the trace is refused so.
    pub fn traces_refused(&mut self, table: &[(&str, &str)]) -> Result<(), Fail> {
        for (trace, row) in table {
            self.refuses(LISTING, trace, row, trace)?;
        }
        Ok(())
    }

    // Of each row: below the listing, these lines behind the names are refused so.
    pub fn lines_refused(&mut self, table: &[(&str, &str)]) -> Result<(), Fail> {
        for (lines, row) in table {
            let trace = format!(in self.heap; "{NAMES}{lines}")?;
            self.refuses(LISTING, trace.as_str(), row, lines)?;
        }
        Ok(())
    }

    // Of each row: with this formula, these lines behind the names are refused so.
    pub fn files_refused(&mut self, table: &[(&str, &str, &str)]) -> Result<(), Fail> {
        for (formula, lines, row) in table {
            let trace = format!(in self.heap; "{NAMES}{lines}")?;
            self.refuses(formula, trace.as_str(), row, formula)?;
        }
        Ok(())
    }

    // Of each row: with this formula, these lines behind the names are accepted, and the counts and the text are printed.
    pub fn files_accepted(&mut self, table: &[(&str, &str, &str, &str)]) -> Result<(), Fail> {
        for (formula, lines, counts, text) in table {
            let trace = format!(in self.heap; "{NAMES}{lines}")?;
            let printed = format!(in self.heap; "{counts}\n{text}")?;
            self.accepts(formula, trace.as_str(), printed.as_str(), formula)?;
        }
        Ok(())
    }
}

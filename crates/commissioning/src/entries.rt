// The four entries: what each compares, printed as it is found.
use crate::again::{Comparison, Spare, meets_formula, same_again};
use crate::page::{Page, Verdict};
use database::ClauseDatabase;
use loading::Loading;
use positions::{read_position, write_position};
use reader::{announced, read_formula};
use reconstruction::ReconstructionStack;
use session::{Finished, seal};
use std::io::Write;
use textlines::count_lines;
use trace::read_trace;
use words::{File, FileFault};

impl Page<'_> {
    // A: loads the formula, and compares the clause count that it announces with the count loaded.
    pub fn load<D: ClauseDatabase>(
        &self,
        db: &mut D,
        stack: &ReconstructionStack<'_>,
    ) -> anyhow::Result<Option<Loading>> {
        let loading = match read_formula(self.inputs.formula, db, stack) {
            Ok(loading) => loading,
            Err(fault) => {
                self.refuse("A formula", fault)?;
                return Ok(None);
            }
        };
        let told = announced(self.inputs.formula).unwrap_or(0);
        let counted = loading.loaded();
        let holds = Verdict(told == u32::from(counted));
        println!(self.rt; "A clauses announced {told}, loaded {counted}: {holds}")?;
        Ok(Some(loading))
    }

    // B: sends the trace, and compares the count of its lines with the count accepted.
    pub fn send<D: ClauseDatabase>(
        &self,
        loading: Loading,
        db: &mut D,
        stack: &mut ReconstructionStack<'_>,
    ) -> anyhow::Result<Option<Finished>> {
        let mut checking = seal(loading);
        if let Err(fault) = read_trace(
            self.inputs.trace,
            &mut checking,
            db,
            stack,
            &mut [0; 1024],
        ) {
            self.refuse("B trace", fault)?;
            return Ok(None);
        }
        let (finished, counts) = checking.finish(db);
        let lines = count_lines(self.inputs.trace).saturating_sub(1);
        let accepted = counts.accepted;
        // `as`: the library has no `From` from u32 to usize
        let holds = Verdict(lines == accepted as usize);
        println!(self.rt; "B lines sent {lines}, accepted {accepted}: {holds}")?;
        Ok(Some(finished))
    }

    // C: writes the reduced formula, reads it back, and compares the clauses and what is written of them. Tells whether it holds.
    pub fn read_back<D: ClauseDatabase>(
        &self,
        spare: &mut Spare,
        finished: &Finished,
        db: &D,
    ) -> anyhow::Result<bool> {
        let len = match finished.write(db, spare.text.as_mut_slice()) {
            Ok(len) => len.min(spare.text.len()),
            Err(fault) => {
                self.refuse(
                    "C reduced formula",
                    FileFault::from(fault).at(File::Write, 0),
                )?;
                return Ok(false);
            }
        };
        let Comparison { holds, lists } = same_again(
            &spare.text[..len],
            &mut spare.arena.arena(),
            spare.again.as_mut_slice(),
        );
        let standing = db.count();
        let holds = holds && standing == usize::from(lists);
        let verdict = Verdict(holds);
        println!(self.rt;
            "C clauses written {standing}, read back {lists}, the texts compared: {verdict}"
        )?;
        Ok(holds)
    }

    // D: restores the full position from the one given, and sees that it meets every clause that was loaded.
    pub fn restore<D: ClauseDatabase>(
        &self,
        spare: &mut Spare,
        finished: &Finished,
        db: &D,
        stack: &ReconstructionStack<'_>,
    ) -> anyhow::Result<()> {
        let count = read_position(self.position, &mut []);
        let mut position = vec![in self.rt.alloc(); 0u8; count]?;
        read_position(self.position, position.as_mut_slice());
        if let Err(fault) = finished.restore(db, stack, position.as_mut_slice()) {
            return self.refuse_position(fault);
        }
        let Comparison { holds, lists } = meets_formula(
            self.inputs.formula,
            &mut spare.arena.arena(),
            position.as_mut_slice(),
        );
        let holds = Verdict(holds);
        println!(self.rt; "D position restored, each of {lists} loaded clauses met: {holds}")?;
        self.print_position(position.as_slice())
    }

    // Prints a position.
    fn print_position(&self, position: &[u8]) -> anyhow::Result<()> {
        let len = write_position(position, &mut []);
        let mut text = vec![in self.rt.alloc(); 0u8; len]?;
        write_position(position, text.as_mut_slice());
        self.rt.stdout().write_all(text.as_slice())?;
        Ok(())
    }
}

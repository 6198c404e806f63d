// The texts of one substation, and how its entries are told.
ghost use Rattle.std.specs.Prelude.{Some};
ghost use Rattle.commissioning.specs.Compared.{verdict_words};

use programs::{Inputs, print_row};
use report::{Row, sentence};
use std::fmt;
use words::{File, FileFault, LocatedFault, SessionFault};

// Whether what was compared is the same.
#[derive(Clone, Copy)]
pub struct Verdict(pub bool);

impl fmt::Display for Verdict {
    ghost output = { λ v. Some (verdict_words v.0) };

    fn fmt<W: fmt::Write>(&self, f: &mut fmt::Formatter<W>) -> fmt::Result {
        f.write_str(if self.0 { "holds" } else { "does not hold" })
    }
}

// Where the entries are told, and the texts of the substation.
#[derive(Clone, Copy)]
pub struct Page<'a> {
    pub rt: &'a HostRuntime,
    pub inputs: Inputs<'a>,
    pub position: &'a [u8],
}

impl Page<'_> {
    // Tells that an entry does not hold since a file or the writing was refused.
    pub fn refuse(&self, entry: &str, fault: LocatedFault) -> anyhow::Result<()> {
        println!(self.rt; "{entry}: does not hold")?;
        self.inputs.refuse(self.rt, fault)
    }

    // The same of the switch position, which restoring refuses.
    pub fn refuse_position(&self, fault: SessionFault) -> anyhow::Result<()> {
        println!(self.rt; "D position: does not hold")?;
        print_row(
            self.rt,
            &Row {
                read: "position",
                line: 0,
                number: fault.refusal().number,
            },
        )?;
        if self.inputs.explained {
            let located = FileFault::from(fault).at(File::Write, 0);
            self.rt.eprintln(sentence(self.rt.alloc(), &located)?)?;
        }
        Ok(())
    }
}

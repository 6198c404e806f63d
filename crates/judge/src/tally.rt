// What came about, counted, so that a reader sees that nothing is vacuous.
use std::alloc::{AllocError, Global};
use std::collections::BTreeMap;
use std::process::Abort;
use std::{fmt, io};
use words::{Kind, Refusal};

// What is counted besides refusals.
#[derive(Clone, Copy, PartialEq, Eq, PartialOrd, Ord)]
pub enum What {
    Histories,
    Opened,
    Satisfiable,
    Unsatisfiable,
    Loaded,
    Resolved,
    Subsumed,
    Blocked,
    Eliminated,
    InPairs,
    Restored,
    Repaired,
    Written,
}

impl What {
    const ALL: [What; 13] = [
        What::Histories,
        What::Opened,
        What::Satisfiable,
        What::Unsatisfiable,
        What::Loaded,
        What::Resolved,
        What::Subsumed,
        What::Blocked,
        What::Eliminated,
        What::InPairs,
        What::Restored,
        What::Repaired,
        What::Written,
    ];
}

impl fmt::Display for What {
    fn fmt<W: fmt::Write>(&self, f: &mut fmt::Formatter<W>) -> fmt::Result {
        f.write_str(match *self {
            What::Histories => "histories",
            What::Opened => "opened at another time",
            What::Satisfiable => "satisfiable",
            What::Unsatisfiable => "unsatisfiable",
            What::Loaded => "lists loaded",
            What::Resolved => "R",
            What::Subsumed => "S",
            What::Blocked => "B",
            What::Eliminated => "E",
            What::InPairs => "E with clauses on both sides",
            What::Restored => "restored",
            What::Repaired => "restored with a change",
            What::Written => "written",
        })
    }
}

// An accepted line of a kind.
impl From<Kind> for What {
    fn from(kind: Kind) -> What {
        match kind {
            Kind::Resolve => What::Resolved,
            Kind::Subsumed => What::Subsumed,
            Kind::Blocked => What::Blocked,
            Kind::Eliminate => What::Eliminated,
        }
    }
}

// How often each came about, and each refusal by its number.
#[derive(Drop)]
pub struct Tally {
    counts: BTreeMap<What, u32>,
    refused: BTreeMap<u8, u32>,
}

// Counts one more of a kind.
fn add<K: Ord + Drop>(counts: &mut BTreeMap<K, u32>, key: K) -> Result<(), AllocError> {
    let count = counts.entry(key)?.or_insert(0);
    *count = count.saturating_add(1);
    Ok(())
}

impl Tally {
    pub fn new(heap: Global) -> Tally {
        Tally {
            counts: BTreeMap::new(heap),
            refused: BTreeMap::new(heap),
        }
    }

    pub fn count(&mut self, what: What) -> Result<(), AllocError> {
        add(&mut self.counts, what)
    }

    // Counts an answer: what was accepted, or the refusal.
    pub fn answer<T>(&mut self, answer: &Result<T, Refusal>, what: What) -> Result<(), AllocError> {
        match answer {
            Ok(_) => self.count(what),
            Err(refusal) => add(&mut self.refused, refusal.number),
        }
    }

    fn print_counts(&self, rt: &HostRuntime) -> io::Result<()> {
        for (what, count) in self.counts.iter() {
            println!(rt; "{what}: {count}")?;
        }
        Ok(())
    }

    // First what came about, and then the refusals.
    pub fn print(&self, rt: &HostRuntime) -> io::Result<()> {
        self.print_counts(rt)?;
        for (number, count) in self.refused.iter() {
            println!(rt; "refused with {number}: {count}")?;
        }
        Ok(())
    }

    // Everything came about, and so did refusals with these numbers, by rising number, and no others.
    pub fn holds(&self, rt: &impl Abort, numbers: &[u8]) {
        for what in &What::ALL {
            assert!(rt; self.counts.contains_key(what), "{what}");
        }
        assert!(rt;
            self.refused.keys().eq(numbers.iter()),
            "other refusals than those that can come"
        );
    }
}

// Writing and reading a formula: each function stands for the theorem in its contract, and does nothing.

#![tactic(auto)]

ghost use Rattle.roundtrip.specs.ReadsBack.{ReadsBack, HoldsWhatStood, WritesTheSame, TextsTell};

// What was written reads back: the same clauses in the same order.
pub fn written_text_reads_back()
    ensures { ReadsBack }
{}

// A database has the space for the clauses that it holds, so what was written from it reads back into it.
pub fn database_holds_what_stood()
    ensures { HoldsWhatStood }
{}

// What was read back is written as the same text.
pub fn read_formula_writes_the_same()
    ensures { WritesTheSame }
{}

// Formulas with one text have the same variables and the same clauses.
pub fn texts_tell_formulas()
    ensures { TextsTell }
{}

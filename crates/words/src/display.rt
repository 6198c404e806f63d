// How files, layers, fields and faults print: a word each, and a sentence for each fault.
ghost use Rattle.std.specs.Prelude.{◌≡◌, Some};
ghost use Rattle.words.specs.Naming.{file_name, layer_name, field_name};
ghost use Rattle.words.specs.Sentences.{database_meaning, stack_meaning, session_meaning, file_meaning};

use crate::fault::{DatabaseFault, File, FileFault, SessionFault, StackFault};
use crate::line::Field;
use crate::refusal::Layer;
use std::error::Error;
use std::fmt;

impl File {
    // The word that names a file in a refusal, or the writing.
    pub fn name(&self) -> &'static str
        ensures { result.now ≡ file_name self.now }
    {
        match self {
            File::Formula => "formula",
            File::Trace => "trace",
            File::Write => "write",
        }
    }
}

impl fmt::Display for File {
    ghost output = { λ x. Some (file_name x) };

    fn fmt<W: fmt::Write>(&self, f: &mut fmt::Formatter<W>) -> fmt::Result {
        f.write_str(self.name())
    }
}

impl Layer {
    // The word for a layer.
    pub fn name(&self) -> &'static str
        ensures { result.now ≡ layer_name self.now }
    {
        match self {
            Layer::Open => "open",
            Layer::File => "file",
            Layer::Formula => "formula",
            Layer::Load => "load",
            Layer::Trace => "trace",
            Layer::Submit => "submit",
            Layer::Rule => "rule",
            Layer::Shelf => "shelf",
            Layer::Roll => "roll",
            Layer::Restore => "restore",
            Layer::Write => "write",
        }
    }
}

impl fmt::Display for Layer {
    ghost output = { λ x. Some (layer_name x) };

    fn fmt<W: fmt::Write>(&self, f: &mut fmt::Formatter<W>) -> fmt::Result {
        f.write_str(self.name())
    }
}

impl Field {
    // The word for a field of a line.
    pub fn name(&self) -> &'static str
        ensures { result.now ≡ field_name self.now }
    {
        match self {
            Field::Kind => "kind",
            Field::Clause => "clause",
            Field::Pivot => "pivot",
            Field::First => "first",
            Field::Second => "second",
        }
    }
}

impl fmt::Display for Field {
    ghost output = { λ x. Some (field_name x) };

    fn fmt<W: fmt::Write>(&self, f: &mut fmt::Formatter<W>) -> fmt::Result {
        f.write_str(self.name())
    }
}

impl DatabaseFault {
    // What a fault of a clause database means.
    pub fn meaning(&self) -> &'static str
        ensures { result.now ≡ database_meaning self.now }
    {
        match self {
            DatabaseFault::Absent(_) => "the clause that the database is to remove does not stand",
            DatabaseFault::NumberTaken => "a clause stands under this number already",
            DatabaseFault::VariableBeyond =>
                "the clause has a variable beyond those that the database takes",
            DatabaseFault::TooWide =>
                "the clause has more literals than the database takes in one clause",
            DatabaseFault::ClausesFull => "the database holds as many clauses as it can",
            DatabaseFault::LiteralsFull => "the database has no space for so many literals",
        }
    }
}

impl fmt::Display for DatabaseFault {
    ghost output = { λ x. Some (database_meaning x) };

    fn fmt<W: fmt::Write>(&self, f: &mut fmt::Formatter<W>) -> fmt::Result {
        f.write_str(self.meaning())
    }
}

impl Error for DatabaseFault {}

impl StackFault {
    // What a fault of the reconstruction stack means.
    pub fn meaning(&self) -> &'static str
        ensures { result.now ≡ stack_meaning self.now }
    {
        match self {
            StackFault::EntriesFull => "the reconstruction stack has no space for so many clauses",
            StackFault::LiteralsFull =>
                "the reconstruction stack has no space for so many literals",
        }
    }
}

impl fmt::Display for StackFault {
    ghost output = { λ x. Some (stack_meaning x) };

    fn fmt<W: fmt::Write>(&self, f: &mut fmt::Formatter<W>) -> fmt::Result {
        f.write_str(self.meaning())
    }
}

impl Error for StackFault {}

impl SessionFault {
    // What a fault of a call of a session means.
    pub fn meaning(&self) -> &'static str
        ensures { result.now ≡ session_meaning self.now }
    {
        match self {
            SessionFault::DatabaseNotEmpty => "the clause database that was handed in is not empty",
            SessionFault::StackNotEmpty =>
                "the reconstruction stack that was handed in is not empty",
            SessionFault::TooManyVariables => "the formula has more than 512 variables",
            SessionFault::LoadedFull => "1024 lists are loaded already",
            SessionFault::LiteralBeyond(_) =>
                "a literal is 0 or beyond the variables of the formula",
            SessionFault::TooManyLiterals(_) => "the list has more than 64 different literals",
            SessionFault::MarksDirty => "the literal marks are not 1024 zero bytes",
            SessionFault::FieldWrong(_) =>
                "a field is 0 although the kind uses it, is filled although the kind does not use it, or is out of range",
            SessionFault::NumberNotAbove(_) =>
                "the number for the resolvent is not above every number given so far",
            SessionFault::Missing(_) => "a clause that the line names does not stand",
            SessionFault::Lacking(_) =>
                "a clause lacks the pivot, or the negation of the pivot where the rule needs that",
            SessionFault::Tautology(_, _) => "the resolvent holds an opposite pair",
            SessionFault::ResolventTooWide(_, _) => "the resolvent has more than 64 literals",
            SessionFault::NotSubsumed(_, _) =>
                "the clause is not subsumed by the other, which is the same clause or has a literal that it lacks",
            SessionFault::NotBlocked(_) =>
                "the resolvent with a standing clause that holds the negation of the pivot has no opposite pair",
            SessionFault::NotCovered(_, _) =>
                "the resolvent of a clause with the pivot and one with its negation neither holds an opposite pair nor stands",
            SessionFault::AssignmentLength(_) =>
                "the assignment has not one byte for each variable",
            SessionFault::AssignmentByte(_) => "a byte of the assignment is neither 0 nor 1",
            SessionFault::Unmet(_) => "the assignment does not meet a clause that stands",
            SessionFault::TextTooLong =>
                "the formula has more than 1024 clauses, or its text more than 65536 bytes",
            SessionFault::BufferShort => "the buffer is shorter than the text",
            SessionFault::Database(fault) => fault.meaning(),
            SessionFault::Stack(fault) => fault.meaning(),
        }
    }
}

impl fmt::Display for SessionFault {
    ghost output = { λ x. Some (session_meaning x) };

    fn fmt<W: fmt::Write>(&self, f: &mut fmt::Formatter<W>) -> fmt::Result {
        f.write_str(self.meaning())
    }
}

impl Error for SessionFault {}

impl FileFault {
    // What a fault of a file means.
    pub fn meaning(&self) -> &'static str
        ensures { result.now ≡ file_meaning self.now }
    {
        match self {
            FileFault::TooManyBytes => "the file has more than 65536 bytes",
            FileFault::HeaderMalformed =>
                "the header is missing, or it is not exactly p cnf and the two counts with single spaces and a line feed",
            FileFault::HeaderBeyond =>
                "the header announces more than 512 variables or more than 1024 clauses",
            FileFault::NotANumber => "a word is not a number",
            FileFault::ClauseCount =>
                "the number of clauses differs from the announced one, or the last 0 is missing",
            FileFault::TooManyWords => "more than 1024 words come before a 0",
            FileFault::NamesWrong =>
                "the first line is not exactly kind clause pivot first second with a line feed",
            FileFault::NotFiveValues =>
                "the line has not five values with a single space between two, or no line feed ends it",
            FileFault::ValueMalformed =>
                "a value is malformed: the kind is R, S, B or E, the others are numbers, and only the pivot may have a minus",
            FileFault::Session(fault) => fault.meaning(),
        }
    }
}

impl fmt::Display for FileFault {
    ghost output = { λ x. Some (file_meaning x) };

    fn fmt<W: fmt::Write>(&self, f: &mut fmt::Formatter<W>) -> fmt::Result {
        f.write_str(self.meaning())
    }
}

impl Error for FileFault {}

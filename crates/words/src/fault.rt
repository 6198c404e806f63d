ghost use Rattle.std.specs.Prelude.{◌≡◌};
ghost use Rattle.words.specs.Refusals.{database_refusal, stack_refusal, session_refusal, file_refusal, located_refusal};

use crate::line::Field;
use crate::refusal::{Layer, Place, Refusal};

// Why a clause database refuses.
#[derive(Clone, Copy, PartialEq, Eq, Debug)]
pub enum DatabaseFault {
    // no clause stands under this number
    Absent(u32),
    NumberTaken,
    VariableBeyond,
    TooWide,
    ClausesFull,
    LiteralsFull,
}

// Why the reconstruction stack refuses.
#[derive(Clone, Copy, PartialEq, Eq, Debug)]
pub enum StackFault {
    EntriesFull,
    LiteralsFull,
}

// Why a call of a session refuses.
#[derive(Clone, Copy, PartialEq, Eq, Debug)]
pub enum SessionFault {
    // opening
    DatabaseNotEmpty,
    StackNotEmpty,
    TooManyVariables,
    // loading; the position in the list
    LoadedFull,
    LiteralBeyond(usize),
    TooManyLiterals(usize),
    // submitting; the field
    MarksDirty,
    FieldWrong(Field),
    // the rules; the clause numbers at fault
    NumberNotAbove(u32),
    Missing(u32),
    Lacking(u32),
    Tautology(u32, u32),
    ResolventTooWide(u32, u32),
    NotSubsumed(u32, u32),
    NotBlocked(u32),
    NotCovered(u32, u32),
    // restoring; the length given, the position, the clause number
    AssignmentLength(usize),
    AssignmentByte(usize),
    Unmet(u32),
    // writing
    TextTooLong,
    BufferShort,
    // a layer below
    Database(DatabaseFault),
    Stack(StackFault),
}

// Why reading a file ends.
#[derive(Clone, Copy, PartialEq, Eq, Debug)]
pub enum FileFault {
    TooManyBytes,
    // the formula
    HeaderMalformed,
    HeaderBeyond,
    NotANumber,
    ClauseCount,
    TooManyWords,
    // the trace
    NamesWrong,
    NotFiveValues,
    ValueMalformed,
    // a call that the file makes
    Session(SessionFault),
}

// The file that a fault names, or the writing of the reduced formula.
#[derive(Clone, Copy, PartialEq, Eq, Debug)]
pub enum File {
    Formula,
    Trace,
    Write,
}

// A fault with the file and the line where it came up; line 0 where there is none, and no Option, since it is told as a number.
#[derive(Clone, Copy, PartialEq, Eq, Debug)]
pub struct LocatedFault {
    pub file: File,
    pub line: usize,
    pub cause: FileFault,
}

// A refusal of its three parts. A clause number is cast to a place by `as`, since the library has no `From` of a u32 for a usize.
fn refusal(number: u8, place: Place, layer: Layer) -> Refusal
    ensures { result ≡ record { number = number; place = place; layer = layer } }
{
    Refusal {
        number,
        place,
        layer,
    }
}

// What each fault tells is a method and no `From`, since a fault of a file needs its line besides.
impl DatabaseFault {
    // The number, the place and the layer.
    pub fn refusal(&self) -> Refusal
        ensures { result ≡ database_refusal self.now }
    {
        match *self {
            DatabaseFault::Absent(k) => refusal(42, Place::At(k as usize), Layer::Shelf),
            DatabaseFault::NumberTaken => refusal(60, Place::Nowhere, Layer::Shelf),
            DatabaseFault::VariableBeyond => refusal(61, Place::Nowhere, Layer::Shelf),
            DatabaseFault::TooWide => refusal(62, Place::Nowhere, Layer::Shelf),
            DatabaseFault::ClausesFull => refusal(63, Place::Nowhere, Layer::Shelf),
            DatabaseFault::LiteralsFull => refusal(64, Place::Nowhere, Layer::Shelf),
        }
    }
}

impl StackFault {
    // The number, the place and the layer.
    pub fn refusal(&self) -> Refusal
        ensures { result ≡ stack_refusal self.now }
    {
        match *self {
            StackFault::EntriesFull => refusal(65, Place::Nowhere, Layer::Roll),
            StackFault::LiteralsFull => refusal(66, Place::Nowhere, Layer::Roll),
        }
    }
}

impl SessionFault {
    // The number, the place and the layer.
    pub fn refusal(&self) -> Refusal
        ensures { result ≡ session_refusal self.now }
    {
        match *self {
            SessionFault::DatabaseNotEmpty => refusal(10, Place::Nowhere, Layer::Open),
            SessionFault::StackNotEmpty => refusal(11, Place::Nowhere, Layer::Open),
            SessionFault::TooManyVariables => refusal(12, Place::Nowhere, Layer::Open),
            SessionFault::LoadedFull => refusal(27, Place::Nowhere, Layer::Load),
            SessionFault::LiteralBeyond(i) => refusal(24, Place::At(i), Layer::Load),
            SessionFault::TooManyLiterals(i) => refusal(25, Place::At(i), Layer::Load),
            SessionFault::MarksDirty => refusal(40, Place::Nowhere, Layer::Submit),
            SessionFault::FieldWrong(f) => refusal(33, Place::At(f.number()), Layer::Submit),
            SessionFault::NumberNotAbove(k) => refusal(41, Place::At(k as usize), Layer::Rule),
            SessionFault::Missing(k) => refusal(42, Place::At(k as usize), Layer::Rule),
            SessionFault::Lacking(k) => refusal(43, Place::At(k as usize), Layer::Rule),
            SessionFault::Tautology(a, b) => refusal(44, Place::Pair(a, b), Layer::Rule),
            SessionFault::ResolventTooWide(a, b) => refusal(45, Place::Pair(a, b), Layer::Rule),
            SessionFault::NotSubsumed(c, a) => refusal(46, Place::Pair(c, a), Layer::Rule),
            SessionFault::NotBlocked(k) => refusal(47, Place::At(k as usize), Layer::Rule),
            SessionFault::NotCovered(p, n) => refusal(48, Place::Pair(p, n), Layer::Rule),
            SessionFault::AssignmentLength(n) => refusal(70, Place::At(n), Layer::Restore),
            SessionFault::AssignmentByte(i) => refusal(71, Place::At(i), Layer::Restore),
            SessionFault::Unmet(k) => refusal(72, Place::At(k as usize), Layer::Restore),
            SessionFault::TextTooLong => refusal(81, Place::Nowhere, Layer::Write),
            SessionFault::BufferShort => refusal(80, Place::Nowhere, Layer::Write),
            SessionFault::Database(f) => f.refusal(),
            SessionFault::Stack(f) => f.refusal(),
        }
    }
}

impl FileFault {
    // The fault where it came up: in a file, at a line, or at line 0 where there is none.
    pub fn at(self, file: File, line: usize) -> LocatedFault
        ensures { result ≡ record { file = file; line = line; cause = self } }
    {
        LocatedFault {
            file,
            line,
            cause: self,
        }
    }

    // The number, the place and the layer, where the fault came up at this line.
    pub fn refusal(&self, line: usize) -> Refusal
        ensures { result ≡ file_refusal self.now line }
    {
        match *self {
            FileFault::TooManyBytes => refusal(20, Place::Nowhere, Layer::File),
            FileFault::HeaderMalformed => refusal(21, Place::At(line), Layer::Formula),
            FileFault::HeaderBeyond => refusal(22, Place::At(line), Layer::Formula),
            FileFault::NotANumber => refusal(23, Place::At(line), Layer::Formula),
            FileFault::ClauseCount => refusal(26, Place::At(line), Layer::Formula),
            FileFault::TooManyWords => refusal(28, Place::At(line), Layer::Formula),
            FileFault::NamesWrong => refusal(30, Place::At(line), Layer::Trace),
            FileFault::NotFiveValues => refusal(31, Place::At(line), Layer::Trace),
            FileFault::ValueMalformed => refusal(32, Place::At(line), Layer::Trace),
            FileFault::Session(f) => f.refusal(),
        }
    }
}

impl LocatedFault {
    // The number, the place and the layer.
    pub fn refusal(&self) -> Refusal
        ensures { result ≡ located_refusal self.now }
    {
        self.cause.refusal(self.line)
    }
}

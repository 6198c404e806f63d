// Each fault as it is told: its number, its place and its layer.
use std::process::Abort;
use words::{
    DatabaseFault, Field, File, FileFault, Layer, Place, Refusal, SessionFault, StackFault,
};

// Faults of a clause database and of the reconstruction stack, each with its number and its place.
const DATABASE: [(DatabaseFault, u8, Place); 6] = [
    (DatabaseFault::Absent(7), 42, Place::At(7)),
    (DatabaseFault::NumberTaken, 60, Place::Nowhere),
    (DatabaseFault::VariableBeyond, 61, Place::Nowhere),
    (DatabaseFault::TooWide, 62, Place::Nowhere),
    (DatabaseFault::ClausesFull, 63, Place::Nowhere),
    (DatabaseFault::LiteralsFull, 64, Place::Nowhere),
];

const STACK: [(StackFault, u8); 2] = [
    (StackFault::EntriesFull, 65),
    (StackFault::LiteralsFull, 66),
];

// Faults of a session.
const SESSION: [(SessionFault, u8, Place, Layer); 21] = [
    (
        SessionFault::DatabaseNotEmpty,
        10,
        Place::Nowhere,
        Layer::Open,
    ),
    (SessionFault::StackNotEmpty, 11, Place::Nowhere, Layer::Open),
    (
        SessionFault::TooManyVariables,
        12,
        Place::Nowhere,
        Layer::Open,
    ),
    (
        SessionFault::LiteralBeyond(2),
        24,
        Place::At(2),
        Layer::Load,
    ),
    (
        SessionFault::TooManyLiterals(66),
        25,
        Place::At(66),
        Layer::Load,
    ),
    (SessionFault::LoadedFull, 27, Place::Nowhere, Layer::Load),
    (
        SessionFault::FieldWrong(Field::Pivot),
        33,
        Place::At(3),
        Layer::Submit,
    ),
    (SessionFault::MarksDirty, 40, Place::Nowhere, Layer::Submit),
    (
        SessionFault::NumberNotAbove(4),
        41,
        Place::At(4),
        Layer::Rule,
    ),
    (SessionFault::Missing(5), 42, Place::At(5), Layer::Rule),
    (SessionFault::Lacking(6), 43, Place::At(6), Layer::Rule),
    (
        SessionFault::Tautology(1, 2),
        44,
        Place::Pair(1, 2),
        Layer::Rule,
    ),
    (
        SessionFault::ResolventTooWide(3, 4),
        45,
        Place::Pair(3, 4),
        Layer::Rule,
    ),
    (
        SessionFault::NotSubsumed(5, 6),
        46,
        Place::Pair(5, 6),
        Layer::Rule,
    ),
    (SessionFault::NotBlocked(7), 47, Place::At(7), Layer::Rule),
    (
        SessionFault::NotCovered(8, 9),
        48,
        Place::Pair(8, 9),
        Layer::Rule,
    ),
    (
        SessionFault::AssignmentLength(3),
        70,
        Place::At(3),
        Layer::Restore,
    ),
    (
        SessionFault::AssignmentByte(2),
        71,
        Place::At(2),
        Layer::Restore,
    ),
    (SessionFault::Unmet(5), 72, Place::At(5), Layer::Restore),
    (SessionFault::BufferShort, 80, Place::Nowhere, Layer::Write),
    (SessionFault::TextTooLong, 81, Place::Nowhere, Layer::Write),
];

// Faults of a file, each at line 9.
const FILE: [(FileFault, u8, Place, Layer); 9] = [
    (FileFault::TooManyBytes, 20, Place::Nowhere, Layer::File),
    (FileFault::HeaderMalformed, 21, Place::At(9), Layer::Formula),
    (FileFault::HeaderBeyond, 22, Place::At(9), Layer::Formula),
    (FileFault::NotANumber, 23, Place::At(9), Layer::Formula),
    (FileFault::ClauseCount, 26, Place::At(9), Layer::Formula),
    (FileFault::TooManyWords, 28, Place::At(9), Layer::Formula),
    (FileFault::NamesWrong, 30, Place::At(9), Layer::Trace),
    (FileFault::NotFiveValues, 31, Place::At(9), Layer::Trace),
    (FileFault::ValueMalformed, 32, Place::At(9), Layer::Trace),
];

// A fault of a file at line 9, as it is told.
fn told(fault: FileFault) -> Refusal {
    fault.at(File::Formula, 9).refusal()
}

// The same of a fault of a session inside it.
fn session_told(fault: SessionFault) -> Refusal {
    told(FileFault::Session(fault))
}

#[test]
fn faults_of_files(rt: HostRuntime) {
    for (fault, number, place, layer) in FILE {
        assert_eq!(rt;
            told(fault),
            Refusal {
                number,
                place,
                layer
            }
        );
    }
}

// Inside a fault of a file they keep their own number, place and layer.
#[test]
fn faults_of_sessions(rt: HostRuntime) {
    for (fault, number, place, layer) in SESSION {
        assert_eq!(rt;
            session_told(fault),
            Refusal {
                number,
                place,
                layer
            }
        );
    }
}

fn databases(rt: &impl Abort) {
    for (fault, number, place) in DATABASE {
        let layer = Layer::Shelf;
        assert_eq!(rt;
            session_told(fault.into()),
            Refusal {
                number,
                place,
                layer
            }
        );
    }
}

fn stacks(rt: &impl Abort) {
    for (fault, number) in STACK {
        let (place, layer) = (Place::Nowhere, Layer::Roll);
        assert_eq!(rt;
            session_told(fault.into()),
            Refusal {
                number,
                place,
                layer
            }
        );
    }
}

#[test]
fn faults_of_databases_and_stacks(rt: HostRuntime) {
    databases(&rt);
    stacks(&rt);
}

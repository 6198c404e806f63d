// The texts that are told of a fault.
ghost use Rattle.std.specs.Prelude.{◌≡◌, true, ◌++◌, is_ok, IfOk, string_bytes};
ghost use Rattle.std.specs.Option.{option_map};
ghost use Rattle.report.specs.Explaining.{refusal_row, heading, quoted, sentence, explanation};

use crate::places::InnerPlace;
use crate::rows::Row;
use std::alloc::{AllocError, Global};
use textlines::faulty_line;
use words::{LocatedFault, Refusal};

// The row of a refusal: the file, the line or 0, and the number.
pub fn refusal_row(heap: Global, fault: &LocatedFault) -> Result<String, AllocError>
    ensures { IfOk result (λ s. string_bytes s ≡ refusal_row fault.now) }
{
    Row::from(*fault).to_string(heap)
}

// The file and the line of a fault, or the file alone.
fn heading(heap: Global, fault: &LocatedFault) -> Result<String, AllocError>
    ensures { IfOk result (λ s. string_bytes s ≡ heading fault.now) }
{
    let file = fault.file;
    let line = fault.line;
    if line == 0 {
        return format!(in heap; "{file}:");
    }
    format!(in heap; "{file}, line {line}:")
}

// The refusal in a sentence: its number, its layer, what it means, its place.
pub fn sentence(heap: Global, fault: &LocatedFault) -> Result<String, AllocError>
    ensures { IfOk result (λ s. string_bytes s ≡ sentence fault.now) }
{
    let Refusal { number, layer, .. } = fault.refusal();
    let meaning = fault.cause;
    let place = InnerPlace(&fault.cause);
    format!(in heap; "refusal {number} ({layer}): {meaning}{place}")
}

// Puts a faulty line behind its heading, where there is one: the line, or its first 200 bytes.
fn push_line(text: &mut Vec<u8>, line: Option<&[u8]>) -> Result<(), AllocError>
    ensures { is_ok result ≡ true → text.new.items ≡ text.old.items ++ quoted (option_map (λ x. x.now) line.entry) }
{
    let Some(line) = line else {
        return Ok(());
    };
    text.extend_from_slice(b" ")?;
    text.extend_from_slice(&line[..line.len().min(200)])?;
    if line.len() > 200 {
        text.extend_from_slice(b"...")?;
    }
    Ok(())
}

// The explanation of a fault: a line with the faulty line, a line with the sentence. Bytes and no String, since a faulty line may be
// no text; the two texts stay two parameters, since the line is a part of one of them.
pub fn explanation(
    heap: Global,
    formula: &[u8],
    trace: &[u8],
    fault: &LocatedFault,
) -> Result<Vec<u8>, AllocError>
    ensures { IfOk result (λ v. v.items ≡ explanation formula.now trace.now fault.now) }
{
    let mut text = heading(heap, fault)?.into_bytes();
    push_line(&mut text, faulty_line(formula, trace, fault))?;
    let sentence = sentence(heap, fault)?;
    text.extend_from_slice(format!(in heap; "\n{sentence}\n")?.as_bytes())?;
    Ok(text)
}

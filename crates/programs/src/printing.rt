// How an accepted task is printed.
use files::Report;
use session::Counts;
use std::io::Write;

// Prints the counts, and the reduced formula as the buffer has it.
pub fn print_report(rt: &HostRuntime, report: &Report, buffer: &[u8]) -> anyhow::Result<()> {
    let Counts {
        accepted,
        standing,
        empty,
    } = report.counts;
    println!(rt; "accepted standing empty")?;
    println!(rt; "{accepted} {standing} {empty}")?;
    if let Some(text) = buffer.get(..report.length) {
        rt.stdout().write_all(text)?;
    }
    Ok(())
}

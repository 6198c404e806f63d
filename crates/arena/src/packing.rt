ghost use Rattle.std.specs.Prelude.{◌≡◌, ◌+◌, ◌≤◌};
ghost use Rattle.arena.specs.Layout.{total, repacked};

use crate::records::Record;

// Writes anew where the literals of the records begin: one clause after another, the first at `at`.
pub(crate) fn repack(records: &mut [Record], mut at: u16)
    requires { at + total records.old ≤ 16384 }
    ensures { records.new ≡ repacked at records.old }
{
    for record in records {
        record.start = at;
        at += u16::from(record.len);
    }
}

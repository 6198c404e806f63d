// The numbers of a session after an accepted line.
ghost use Rattle.std.specs.Prelude.{◌≡◌, ◌≤◌};
ghost use Rattle.rules.specs.Lines.{line_gives, one_more};

use words::{Kind, Line};

// The highest number given, after a line: an R line gives its clause's.
pub(crate) fn given_after(given: u32, line: &Line) -> u32
    ensures { result ≡ line_gives given line.now }
{
    match line.kind {
        Kind::Resolve => line.clause,
        Kind::Subsumed | Kind::Blocked | Kind::Eliminate => given,
    }
}

// One accepted line more, counted up to 1,000,000,000.
pub(crate) fn one_more(accepted: u32) -> u32
    requires { accepted ≤ 1000000000 }
    ensures value { result ≡ one_more accepted }
    ensures bound { result ≤ 1000000000 }
{
    (accepted + 1).min(1_000_000_000)
}

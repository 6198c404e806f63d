// Tests that need many cases: tables of calls and texts, and random calls from a fixed seed, each held to a simple model of its
// own. All of it is read for the tests only.

#![tactic(auto)]

#[cfg(test)]
mod drive;
#[cfg(test)]
mod kinds;
#[cfg(test)]
mod lists;
#[cfg(test)]
mod make;
#[cfg(test)]
mod model;
#[cfg(test)]
mod refusals;
#[cfg(test)]
mod restoring;
#[cfg(test)]
mod texts;
#[cfg(test)]
mod writing;

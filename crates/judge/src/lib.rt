// An independent judge: a plain and slow checker of its own, written from the rule book alone. Whole random histories from a fixed
// seed are run through the calls of a session on both kinds of clause database, and after every call the answer and everything
// that is kept are held to the judge's. All of it is read for the tests only.

#![tactic(auto)]

#[cfg(test)]
mod answer;
#[cfg(test)]
mod brute;
#[cfg(test)]
mod drive;
#[cfg(test)]
mod ending;
#[cfg(test)]
mod generate;
#[cfg(test)]
mod judge;
#[cfg(test)]
mod limits;
#[cfg(test)]
mod line_rules;
#[cfg(test)]
mod same;
#[cfg(test)]
mod sets;
#[cfg(test)]
mod tally;
#[cfg(test)]
mod tests;

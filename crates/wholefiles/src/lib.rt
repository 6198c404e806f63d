// Whole files with the exact printout of the program: each refusal that files can give, each boundary of the formats, and files
// that were damaged. All of it is read for the tests only.

#![tactic(auto)]

#[cfg(test)]
mod damage;
#[cfg(test)]
mod formulas;
#[cfg(test)]
mod large;
#[cfg(test)]
mod meeting;
#[cfg(test)]
mod printout;
#[cfg(test)]
mod rule_tables;
#[cfg(test)]
mod tables;
#[cfg(test)]
mod traces;

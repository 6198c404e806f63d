// The worked listing and the worked refusals, run through the very calls of a session, on both kinds of clause database.

#![tactic(auto)]

#[cfg(test)]
mod listing;
#[cfg(test)]
mod refusals;
#[cfg(test)]
mod setup;

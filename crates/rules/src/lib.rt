// The definitions of every rule of the checker, in specs/: nothing here is code. The theory proves the law of histories of
// them, and the contracts of the session cite them.

#![tactic(auto)]

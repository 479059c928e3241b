// How a map holds slots: words in a row as a set of slots, a run painted in them, and fields such as a
// summary that are kept beside them. There is no code here; `specs/` is the crate. Rests on `slots` and `places`.
#![tactic(auto)]

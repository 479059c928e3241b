// The original's two files as definitions that compute, line by line, and stored answers of the compiled original, one of
// each kind, computed on them. There is no code here; `specs/` is the crate. Rests on `bits`.
#![tactic(auto)]

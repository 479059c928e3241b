// What a record of calls means: its fields, its report, and the limits. There is no code here;
// `specs/` is the crate. Rests on `slots` and `tree`.
#![tactic(auto)]

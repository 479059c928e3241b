// More stored answers of the compiled original, computed on its transcription. There is no code here; `specs/` is the crate,
// and `tools/stored` makes it. Rests on `source`.
#![tactic(auto)]

// Where the original's code gives an answer, ours is the same, save for the listed departures: said and proved of its
// transcription. There is no code here; `specs/` is the crate. Rests on `source`, and on the word, the tree and the third level.
#![tactic(auto)]

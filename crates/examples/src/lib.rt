// The worked examples, as theorems by computation. The crate has no functions, and no must-fail edits: no edit pays for what is
// computed here.
#![tactic(auto)]

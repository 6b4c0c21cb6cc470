// The laws of the model: what its definitions imply, all of it in specs/. There is no code here.
#![tactic(auto)]

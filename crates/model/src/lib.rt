// The model of the card: definitions, all of it in specs/. There is no code here.
#![tactic(auto)]

// Demand 3: two cards that cannot be told apart. Theorems about the model, all of it in specs/. There is no code here.
#![tactic(auto)]

// Theorems about logs and sessions, over the model's definitions alone. They are in specs/.
#![tactic(auto)]

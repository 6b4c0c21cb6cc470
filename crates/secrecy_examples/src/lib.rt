// Demand 3 on two cards, computed: that its statements are not empty, and that their conditions are needed. All of it is in specs/. There is no
// code here.
#![tactic(auto)]

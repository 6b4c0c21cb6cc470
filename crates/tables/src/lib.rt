// What the model computes on whole cards, one command at a time, beside what the paper says: tables, each with its one theorem, all of it in
// specs/. There is no code here.
#![tactic(auto)]

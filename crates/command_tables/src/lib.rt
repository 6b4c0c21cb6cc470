// What the model computes for tries, for closed bytes and for busy cards, beside what the requests say: tables, each with its one theorem, all of it
// in specs/. There is no code here.
#![tactic(auto)]

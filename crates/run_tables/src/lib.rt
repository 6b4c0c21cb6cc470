// What the model computes for logs, for written sessions and for torn writes, beside what the requests say: tables, each with its one theorem, all of
// it in specs/. There is no code here.
#![tactic(auto)]

// What the model computes for fetched answers and for the box, beside what the request says: tables, each with its one theorem, all of it in specs/.
// There is no code here.
#![tactic(auto)]

// The demands, stated for those who check them. There is no code here: proofs/ has one file for each demand, the marked examples, and
// for each outside function the theorem that its contract allows one answer only.
#![tactic(auto)]

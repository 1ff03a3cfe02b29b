// Promises 3 and 2, about the public calls of planner, writer and reader together. There is no code here: the theorems
// stand in proofs/, promise 3 in proofs/Promise.antt in the order of its sentences.
#![tactic(auto)]

// The ten cases that document 01 marks to be proved: specs/ has them as one table, proofs/ the one
// theorem about the definitions. There is no code.

#![tactic(auto)]

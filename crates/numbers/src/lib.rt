// No number is lost where the definitions' numbers become values of `Refusal`: each call answers the refusal whose number its rules give.
// There is no code: specs/ has the statement, proofs/ the proof, over the definitions that the calls' contracts cite.

#![tactic(auto)]

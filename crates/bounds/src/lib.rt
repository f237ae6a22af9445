// How many rows a recovery needs, and how large the numbers of an accepted one are. There is no code: specs/
// has the statement, proofs/ the proofs, over the definitions that the contract of recovery cites.

#![tactic(auto)]

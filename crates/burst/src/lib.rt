// Request 11: four damaged bytes of a payload never pass. There is no code: specs/ has the statement and what
// it does not cover, proofs/ the proofs, over the definitions that the contracts of read, walk and recovery cite.

#![tactic(auto)]

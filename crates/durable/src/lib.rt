// What a crash can take: recovery was not refused at a length L, and an image still holds the log's first L bytes. There is no code: specs/
// has the statement, proofs/ the proofs, over the definitions that the contracts of walk and recovery cite.

#![tactic(auto)]

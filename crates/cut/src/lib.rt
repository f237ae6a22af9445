// The theorem of the terms' demand 3. There is no code: specs/ has the plain log and the statement,
// proofs/ the proof, over the definitions that the contracts of the crate wal cite.

#![tactic(auto)]

// The theorem that a store and its log say the same. There is no code: specs/ has the statement, proofs/
// the proof, over the contracts of the store's calls.

#![tactic(auto)]

// Definitions and laws on lists that every other crate cites: specs/ has the definitions, proofs/
// the laws. There is no code.

#![tactic(auto)]

// The round trips of the records: each parser takes exactly the layouts of valid values, and gives
// those values. specs/ has the definitions, proofs/ the theorems. There is no code.

#![tactic(auto)]

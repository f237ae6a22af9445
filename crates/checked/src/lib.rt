// A node that logs by its checked calls alone never makes a log that recovery refuses, except for tables that are
// too small (15). There is no code: specs/ has the statement, proofs/ the proofs, over the contracts of append, insert
// and recovery.

#![tactic(auto)]

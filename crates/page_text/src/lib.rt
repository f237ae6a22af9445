// The text of the recovery page (request 01). There is no code: specs/ has the page and the statement, proofs/
// the proofs. The crate `page` puts the text into a buffer.

#![tactic(auto)]

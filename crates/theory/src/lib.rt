// Definitions and laws only: see specs/ and proofs/.

#![tactic(auto)]

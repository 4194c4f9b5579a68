// Definitions and their laws only: see specs/ and proofs/.

#![tactic(auto)]

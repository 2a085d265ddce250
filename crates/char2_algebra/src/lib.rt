#![tactic(auto)]

// Algebra over a field of characteristic 2: definitions and lemmas alone, in specs/ and proofs/, no code.

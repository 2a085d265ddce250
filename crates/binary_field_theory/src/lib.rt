#![tactic(auto)]

// Elements of GF(2^5) and GF(2^61) as numbers: definitions and theorems alone, in specs/ and proofs/, no code.

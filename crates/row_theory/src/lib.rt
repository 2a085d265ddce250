#![tactic(auto)]

// Rows of coefficients and the polynomials that they stand for: definitions in specs/, theorems in proofs/, no code.

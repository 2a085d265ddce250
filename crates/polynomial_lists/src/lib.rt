#![tactic(auto)]

// The trimmed lists of coefficients as the polynomials over a field: definitions and lemmas alone, no code.

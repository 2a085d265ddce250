#![tactic(auto)]

// Theorems on the call that suppresses an operation; no code.

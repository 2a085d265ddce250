#![tactic(auto)]

// Theorems on the stored form: bytes and values determine each other. Definitions and theorems, no code.

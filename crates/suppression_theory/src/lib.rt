#![tactic(auto)]

// Suppressing one operation of a list of operations: definitions and theorems on seals and walks. No code.

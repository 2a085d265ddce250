#![tactic(auto)]

// Theorems on archives: bytes and values determine each other, the length, and reading one part at a time. No code.

#![tactic(auto)]

// Theorems on multiples and repeated halves by bytes, with the byte calls of sums, doubles and halves. No code.

#![tactic(auto)]

// Theorems on lists of byte calls with the walks of lent rows and of archives. Definitions and theorems alone, no code.

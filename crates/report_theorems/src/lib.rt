#![tactic(auto)]

// Theorems on the walk report and on an archive's walk. Definitions and theorems alone, no code.

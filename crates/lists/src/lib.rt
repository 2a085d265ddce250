#![tactic(auto)]

// Lists: a predicate of each element, two lists that differ at one position, and walks by a rule along a list.
// Definitions and theorems alone, no code.

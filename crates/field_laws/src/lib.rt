#![tactic(auto)]

// Rings and fields of characteristic 2 as records of operations and laws: definitions alone, in specs/, no code.

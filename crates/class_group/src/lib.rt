#![tactic(auto)]

// Divisor classes of genus 3 in characteristic 2: definitions and theorems alone, in specs/ and proofs/, no code.

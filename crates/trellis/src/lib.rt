// The way to the nearest string: a machine with two moves, the coder as one, and the same on 64 numbers. Definitions
// and laws only.
#![tactic(auto)]

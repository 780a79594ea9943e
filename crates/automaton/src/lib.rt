// Deterministic machines and their minimal ones: partitions of the states, the quotient, canonicity. Definitions and laws, with no code.
// A machine is a flat list of next states, entry s * actions + a for action a in state s. An entry that is no state's number is a trip.
#![tactic(auto)]

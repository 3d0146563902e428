// What the calls of a session come to, one after the other: demand 3, with lines taken back (02, T-12). It holds
// definitions and laws alone.
#![tactic(auto)]

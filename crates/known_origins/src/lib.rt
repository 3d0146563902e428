// Where the failed line of a scene comes from, by its outcome: never unknown (02, T-06). It holds definitions and laws alone.
#![tactic(auto)]

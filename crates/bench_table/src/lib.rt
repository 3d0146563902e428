// 01's bench cases, P1 to P12 and the limits of its last row, as one table with one claim, which is of the definitions
// alone. The program `bench_cases` runs them through the code.
#![tactic(auto)]

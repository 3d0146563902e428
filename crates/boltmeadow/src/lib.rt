// The solver in process, for C and Rust: every function of include/boltmeadow.h that is not inline there. No function
// asks anything of its caller: whatever bytes and numbers are lent, the answer is a result or the number of a refusal,
// which leaves what was lent as it was.
// kept: C interface: its structs hold a refusal beside what is told, and its numbers and counts are arguments of their own
#![tactic(auto)]

mod lists;
mod logs;
mod scenes;
mod sessions;
mod walls;

// Fields of records: big-endian numbers over bytes, and steps of reading one behind the other. It holds definitions and
// laws alone.
#![tactic(auto)]

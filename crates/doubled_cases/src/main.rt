// Runs obstacles with doubled vertices, and some without (02, T-11), through every call that takes an obstacle, lent or
// in a record: all must tell the same number, 0 where none is told.
#![tactic(auto)]

use admission::Refusal;
use verdict::Tally;

mod in_records;
mod lent;

// The number that is told.
fn number_of<T>(told: &Result<T, Refusal>) -> u8 {
    match told {
        Ok(_) => 0,
        Err(refusal) => refusal.number(),
    }
}

// One obstacle, lent and in a record.
fn with(t: Tally, name: u32, kind: u8, count: u8, vertices: &[f32], number: u8) -> Tally {
    t.with(lent::are_told(kind, count, vertices, number), name)
        .with(in_records::are_told(kind, count, vertices, number), name)
}

// A vertex that is the one before it again: but for a zero's sign, before a NaN, and with a NaN of its own (6).
fn pairs(t: Tally) -> Tally {
    let signed = [0.0, 0.0, -0.0, 0.0];
    let before = [0.0, 5.0, 0.0, 5.0, 0.0 / 0.0, 0.0];
    let own = [0.0, 5.0, 0.0, 0.0 / 0.0];
    let t = with(t, 1, 2, 2, &signed, 14);
    let t = with(t, 2, 2, 3, &before, 14);
    with(t, 3, 2, 2, &own, 6)
}

// The closing pair of a closed obstacle, and no such pair of an open one; one vertex, with P12's two.
fn closings(t: Tally) -> Tally {
    let round = [0.0, 5.0, 1.0, 5.0, -0.0, 5.0];
    let here = [0.0, 0.0];
    let near = [0.5, 0.0];
    let far = [5.0, 0.0];
    let t = with(t, 4, 1, 3, &round, 14);
    let t = with(t, 5, 2, 3, &round, 0);
    let t = with(t, 6, 1, 1, &here, 14);
    let t = with(t, 7, 1, 1, &near, 14);
    with(t, 8, 1, 1, &far, 14)
}

// Equal in one component alone, and with another vertex between.
fn others(t: Tally) -> Tally {
    let beside = [5.0, 5.0, 5.0, 6.0, 6.0, 6.0];
    let between = [5.0, 5.0, 6.0, 5.0, 5.0, 5.0, 6.0, 6.0];
    let t = with(t, 9, 1, 3, &beside, 0);
    with(t, 10, 1, 4, &between, 0)
}

fn main(rt: HostRuntime) {
    others(closings(pairs(Tally::NONE))).tell(&rt, b"doubled vertices");
}

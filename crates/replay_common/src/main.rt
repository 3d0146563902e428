// Replays the set `common`: the Rust's answers to `determinant`, to `time_to_intersect_lines` and to what the port uses
// of glam's `Vec2`. A record is, in words: a (2), b (2), k; then the answers: determinant, a + b (2), a - b (2), -a
// (2), a * k (2), a / k (2), dot, perp (2), squared length, squared distance, normalize (2), and 1 where a == b, else
// 0. Then a second line's start (2) and end (2), and of it and the line from a to b 1 and the times (2) at which they
// meet, or three zeros where they are parallel.
#![tactic(auto)]

ghost use Rattle.std.specs.Prelude.{◌≡◌, ◌<◌};
ghost use Rattle.replay_common.specs.CommonSet.{operators_agree, functions_agree, is_times, is_replayed};

use common::Vec2;
use replay_records::{Walk, is_flag, is_number, is_vector, number_at, vector_at};

// Whether the record is whole, and each answer is the one that `common` gives, bit for bit.
#[tactic(auto, unfolding(crate::specs::CommonSet::is_replayed))]
fn is_replayed(bytes: &[u8]) -> bool
    ensures { result ≡ is_replayed bytes.now }
{
    if bytes.len() < 124 {
        return false;
    }
    let a = vector_at(bytes, 0);
    let b = vector_at(bytes, 8);
    let k = number_at(bytes, 16);
    let start = vector_at(bytes, 96);
    let times = common::time_to_intersect_lines(a, b, start, vector_at(bytes, 104));
    operators_agree(bytes, a, b, k) && functions_agree(bytes, a, b) && is_times(bytes, times)
}

// Whether the answers of the operators are those of `common`.
#[tactic(auto, unfolding(crate::specs::CommonSet::operators_agree))]
fn operators_agree(bytes: &[u8], a: Vec2, b: Vec2, k: f32) -> bool
    ensures { result ≡ operators_agree bytes.now a b k }
{
    is_vector(bytes, 24, a.add(b))
        && is_vector(bytes, 32, a.sub(b))
        && is_vector(bytes, 40, a.neg())
        && is_vector(bytes, 48, a.mul(k))
        && is_vector(bytes, 56, a.div(k))
        && is_flag(bytes, 92, a.eq(b))
}

// Whether the answers of the functions that have a name are those of `common`.
#[tactic(auto, unfolding(crate::specs::CommonSet::functions_agree))]
fn functions_agree(bytes: &[u8], a: Vec2, b: Vec2) -> bool
    ensures { result ≡ functions_agree bytes.now a b }
{
    is_number(bytes, 20, common::determinant(a, b))
        && is_number(bytes, 64, a.dot(b))
        && is_vector(bytes, 68, a.perp())
        && is_number(bytes, 76, a.length_squared())
        && is_number(bytes, 80, a.distance_squared(b))
        && is_vector(bytes, 84, a.normalize())
}

// Whether the times, or that there are none, are the answer.
#[tactic(auto, unfolding(crate::specs::CommonSet::is_times))]
fn is_times(bytes: &[u8], times: Option<Vec2>) -> bool
    ensures { result ≡ is_times bytes.now times }
{
    match times {
        Some(at) => is_flag(bytes, 112, true) && is_vector(bytes, 116, at),
        None => is_flag(bytes, 112, false) && is_vector(bytes, 116, Vec2::ZERO),
    }
}

// One record more: read, and compared.
fn turn(walk: Walk, head: &mut [u8]) -> Walk
    requires { 0 < walk.left }
    ensures { result.left < walk.left }
{
    let read = walk.read_head(head);
    if read.left == 0 {
        return read;
    }
    let tally = read.tally;
    let index = read.index();
    read.behind(tally.with(is_replayed(head), index))
}

// The walk to its end.
fn walked(start: Walk) -> Walk {
    let mut walk = start;
    let mut head: [u8; 124] = [0; 124];
    // kept: no plainer: a walk is over where its file is
    while walk.left > 0 {
        walk = turn(walk, &mut head);
    }
    walk
}

fn main(rt: HostRuntime) {
    walked(Walk::open(&rt, b"common")).tell(&rt, b"common");
}

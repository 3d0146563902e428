// Replays the set `lists`: the answers to whole line lists, the Rust's where a list is admitted, else the number of its refusal.
// A record is its list and one answer.
#![tactic(auto)]

ghost use Rattle.std.specs.Prelude.{◌≡◌, ◌<◌};
ghost use Rattle.linear_programming.specs.Read.{outcome_of};
ghost use Rattle.replay_lists.specs.ListsSet.{is_answer, is_replayed};

use admission::Refusal;
use common::Vec2;
use linear_programming::Standing;
use replay_records::{Walk, first_numbers, number_at, vector_at};
use replay_standings::{is_standing, is_told};

// Whether the record's answer is the one that `linear_programming` gives.
fn is_replayed(head: &[u8], rest: &[u8]) -> bool
    ensures { result ≡ is_replayed head.now rest.now }
{
    let count = words::word_at(head, 0) as usize;
    if count > 1280 {
        return false;
    }
    let rigid = words::word_at(head, 4) as usize;
    let limit = number_at(head, 8);
    let wish = vector_at(head, 12);
    let numbers = first_numbers(rest, count);
    let answer = linear_programming::solve_linear_program(&numbers[0..count], rigid, limit, wish);
    is_answer(rest, (4 * count) as u16, answer)
}

// Whether the answer is the one at the place. A refusal is told by its number and nothing else.
fn is_answer(bytes: &[u8], at: u16, answer: Result<Standing, Refusal>) -> bool
    ensures { result ≡ is_answer bytes.now at (outcome_of answer) }
{
    match answer {
        Ok(standing) => is_standing(bytes, at, standing.phase, standing.failed, standing.probes),
        Err(refusal) => {
            let kind = 100 + refusal.number() as u32;
            is_told(bytes, at, kind, Vec2::ZERO, 0.0, None, 0)
        }
    }
}

// How many bytes a head says are behind it: the list's numbers and an answer.
fn rest_length(head: &[u8]) -> usize {
    4 * (words::word_at(head, 0) as usize) + 28
}

// One record more: read, and compared.
fn turn(walk: Walk, head: &mut [u8], rest: &mut [u8]) -> Walk
    requires { 0 < walk.left }
    ensures { result.left < walk.left }
{
    let begun = walk.read_head(head);
    let read = begun.read_rest(rest_length(head), rest);
    if read.left == 0 {
        return read;
    }
    let tally = read.tally;
    let index = read.index();
    read.behind(tally.with(is_replayed(head, rest), index))
}

// The walk to its end.
fn walked(start: Walk) -> Walk {
    let mut walk = start;
    let mut head: [u8; 20] = [0; 20];
    // The longest rest: 320 lines and an answer.
    let mut rest: [u8; 5148] = [0; 5148];
    // kept: no plainer: a turn fills two buffers and leaves how the walk stands
    while walk.left > 0 {
        walk = turn(walk, &mut head, &mut rest);
    }
    walk
}

fn main(rt: HostRuntime) {
    walked(Walk::open(&rt, b"lists")).tell(&rt, b"lists");
}

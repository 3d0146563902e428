// Replays the set `walls`: moves over lent obstacles, told as the oracle's walk over the Rust's times tells them. A
// record is, in words: from (2), to (2), the obstacles' count, how many kinds, counts and numbers of vertices are lent;
// the answer, 0 where the move is clear, 1 where it crosses an edge, 100 + the number of a refusal; obstacle and left
// vertex of the first crossed edge, and how many are crossed, 0 where none is; then the numbers, a word each, the kinds
// and the counts, a byte each.
#![tactic(auto)]

ghost use Rattle.std.specs.Prelude.{◌<◌};

use admission::Refusal;
use replay_records::{Walk, first_numbers, vector_at};
use wall_check::Crossing;

// The word at the place as a size.
fn size_at(head: &[u8], at: usize) -> usize
    ensures { result < 4294967296 }
{
    words::word_at(head, at) as usize
}

// How many bytes a head says are behind it.
fn rest_length(head: &[u8]) -> usize {
    4 * size_at(head, 28) + size_at(head, 20) + size_at(head, 24)
}

// Whether the check is the answer that the head has: what is told, and the first crossed edge with how many there are.
fn is_answer(head: &[u8], check: Result<Option<Crossing>, Refusal>) -> bool {
    let none = Crossing {
        obstacle: 0,
        vertex: 0,
        count: 0,
    };
    let (told, first) = match check {
        Ok(Some(crossing)) => (1, crossing),
        Ok(None) => (0, none),
        Err(refusal) => (100 + refusal.number() as usize, none),
    };
    let given = Crossing {
        obstacle: size_at(head, 36),
        vertex: size_at(head, 40),
        count: size_at(head, 44),
    };
    size_at(head, 32) == told && given == first
}

// Whether the move is told as its record has it. A record that lends more than fits here is bad.
fn is_replayed(head: &[u8], rest: &[u8]) -> bool {
    let numbers = size_at(head, 28);
    let numbers_end = 4 * numbers;
    let kinds_end = numbers_end + size_at(head, 20);
    let counts_end = kinds_end + size_at(head, 24);
    if numbers > 1280 {
        return false;
    }
    if counts_end > rest.len() {
        return false;
    }
    let vertices = first_numbers(rest, numbers);
    let check = wall_check::check_move(
        vector_at(head, 0),
        vector_at(head, 8),
        size_at(head, 16),
        &rest[numbers_end..kinds_end],
        &rest[kinds_end..counts_end],
        &vertices[..numbers],
    );
    is_answer(head, check)
}

// One record more: read, and compared.
fn turn(walk: Walk, head: &mut [u8], rest: &mut [u8]) -> Walk
    requires { 0 < walk.left }
    ensures { result.left < walk.left }
{
    let begun = walk.read_head(head);
    let read = begun.read_rest(rest_length(head), rest);
    if read.left == 0 {
        return read;
    }
    let tally = read.tally;
    let index = read.index();
    read.behind(tally.with(is_replayed(head, rest), index))
}

// The walk to its end.
fn walked(start: Walk) -> Walk {
    let mut walk = start;
    let mut head: [u8; 48] = [0; 48];
    // More than 192 vertices and 16 obstacles, so that records at fault have room.
    let mut rest: [u8; 2048] = [0; 2048];
    // kept: no plainer: a walk is over where its file is
    while walk.left > 0 {
        walk = turn(walk, &mut head, &mut rest);
    }
    walk
}

fn main(rt: HostRuntime) {
    walked(Walk::open(&rt, b"walls")).tell(&rt, b"walls");
}

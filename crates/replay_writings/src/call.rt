// A call of the writer. Its head is sixteen words: position, velocity, margin, horizon, wish and limit (nine numbers),
// the obstacles' count, how many kinds, counts and numbers of vertices are lent, the neighbours' count, how many
// numbers of lines are lent, and the buffer's length. Behind it stand the kinds and the counts, a byte each, and the
// numbers of vertices and lines, a word each. The answer is a pair, the refusal's number or 0, a pair, the length or 0,
// and the whole buffer.
ghost use Rattle.std.specs.Prelude.{◌≤◌, ◌<◌};

use admission::Refusal;
use common::Vec2;
use edges::Agent;
use scene_records::Cart;

// What stands in a buffer before the writer is called.
pub(crate) const SENTINEL: u8 = 0xa5;

fn size_at(head: &[u8], word: usize) -> usize
    requires { word ≤ 16 }
    ensures { result < 4294967296 }
{
    words::word_at(head, 4 * word) as usize
}

fn number_at(head: &[u8], word: usize) -> f32
    requires { word ≤ 16 }
{
    words::number(words::word_at(head, 4 * word))
}

// How many bytes a head says are behind it.
pub(crate) fn rest_length(head: &[u8]) -> usize {
    size_at(head, 10) + size_at(head, 11) + 4 * size_at(head, 12) + 4 * size_at(head, 14)
}

fn cart_in(head: &[u8]) -> Cart {
    Cart {
        agent: Agent {
            position: Vec2::new(number_at(head, 0), number_at(head, 1)),
            velocity: Vec2::new(number_at(head, 2), number_at(head, 3)),
        },
        margin: number_at(head, 4),
        horizon: number_at(head, 5),
        wish: Vec2::new(number_at(head, 6), number_at(head, 7)),
        limit: number_at(head, 8),
    }
}

// As many numbers as `count` from a place on, and then zeros.
fn numbers_at(bytes: &[u8], at: usize, count: usize) -> [f32; 512]
    requires { (at ≤ 4096) × (count ≤ 512) }
{
    let mut numbers = [0.0; 512];
    for i in 0..count {
        numbers[i] = words::number(words::word_at(bytes, at + 4 * i));
    }
    numbers
}

// What was told, in front of the buffer.
fn put_told(answer: &mut [u8], written: Result<usize, Refusal>) {
    let (refusal, length) = match written {
        Ok(length) => (0, length),
        Err(refusal) => (refusal.number(), 0),
    };
    words::put_pair(answer, 0, u16::from(refusal));
    words::put_pair(answer, 2, (length % 0x1_0000) as u16);
}

// Makes the call, and answers how many bytes the answer has: 0 for a call that has more than fits here.
pub(crate) fn answer_call(head: &[u8], rest: &[u8], answer: &mut [u8]) -> usize {
    let behind_kinds = size_at(head, 10);
    let behind_counts = behind_kinds + size_at(head, 11);
    let vertices = size_at(head, 12);
    let lines = size_at(head, 14);
    let end = 4 + size_at(head, 15);
    if behind_counts > rest.len() || behind_counts > 2048 {
        return 0;
    }
    if vertices > 512 || lines > 512 || end > answer.len() {
        return 0;
    }
    let vertex_numbers = numbers_at(rest, behind_counts, vertices);
    let line_numbers = numbers_at(rest, behind_counts + 4 * vertices, lines);
    let written = scene_writer::write_scene(
        cart_in(head),
        size_at(head, 9),
        &rest[0..behind_kinds],
        &rest[behind_kinds..behind_counts],
        &vertex_numbers[0..vertices],
        size_at(head, 13),
        &line_numbers[0..lines],
        &mut answer[4..end],
    );
    put_told(answer, written);
    end
}

// The scene writer (02, T-01): a scene's parts, lent as numbers, written as the record that `scene_records` reads.
#![tactic(auto)]

ghost use Rattle.std.specs.Prelude.{◌≡◌, ◌+◌, ◌*◌, ◌≤◌, length};
ghost use Rattle.admission.specs.Faults.{fault_of};
ghost use Rattle.scene_writer.specs.Writing.{parts_fault, rest_fault, written_of, written_scene};

use admission::{Judged, Refusal};
use scene_records::Cart;

mod judge;
mod put;

// A scene's parts, lent as numbers.
#[derive(Clone, Copy)]
pub(crate) struct Parts<'a> {
    pub(crate) cart: Cart,
    pub(crate) obstacles: usize,
    pub(crate) kinds: &'a [u8],
    pub(crate) counts: &'a [u8],
    pub(crate) vertices: &'a [f32],
    pub(crate) neighbours: usize,
    pub(crate) lines: &'a [f32],
}

// Writes a scene's record to the buffer's start; bytes behind it keep their contents. Refused, in this order, and then
// nothing is written: a number of the cart not finite or out of range (6); the obstacles as `layouts::judge_layout`
// tells them (4, 2, 3, 5, 6, 14); more than 64 neighbour lines (4); for each line each number not lent (2), not finite
// or out of range (6), then a direction out of its band (7); more kinds, counts, vertices or lines lent than the counts
// say (2); a buffer shorter than the record (10).
// kept: promised: write_scene, whose parts each caller lends one by one
pub fn write_scene(
    cart: Cart,
    obstacles: usize,
    kinds: &[u8],
    counts: &[u8],
    vertices: &[f32],
    neighbours: usize,
    lines: &[f32],
    buffer: &mut [u8],
) -> Result<usize, Refusal>
    ensures { written_of result buffer.new
        ≡ written_scene cart obstacles kinds.now counts.now vertices.now neighbours
        lines.now buffer.old }
{
    let parts = Parts {
        cart,
        obstacles,
        kinds,
        counts,
        vertices,
        neighbours,
        lines,
    };
    judge_parts(parts)?;
    let length = record_length(parts);
    Refusal::NoRoom.unless(length <= buffer.len())?;
    put::put_scene(buffer, parts);
    Ok(length)
}

// How many bytes a record has: 41, two for each obstacle, four for each number.
fn record_length(parts: Parts) -> usize
    requires { (parts.obstacles ≤ 16) × (length parts.vertices.now ≤ 384) × (length parts.lines.now ≤ 256) }
    ensures { let lent = parts.entry in
        result ≡ 41 + 2 * lent.obstacles + 4 * length lent.vertices.now + 4 * length lent.lines.now }
{
    41 + 2 * parts.obstacles + 4 * parts.vertices.len() + 4 * parts.lines.len()
}

// The parts in the order of the record's fields, then what is lent beyond the counts.
fn judge_parts(parts: Parts) -> Judged
    ensures { let lent = parts.entry in
        fault_of result ≡ parts_fault lent.cart lent.obstacles lent.kinds.now lent.counts.now lent.vertices.now
        lent.neighbours lent.lines.now }
{
    judge::judge_cart(parts.cart)?;
    let total = layouts::judge_layout(parts.obstacles, parts.kinds, parts.counts, parts.vertices)?;
    judge_rest(parts, total)
}

// The neighbour lines, then what is lent beyond the counts.
#[tactic(auto, using(crate::proofs::Judging::judging), unfolding(crate::specs::Writing::rest_fault))]
fn judge_rest(parts: Parts, total: usize) -> Judged
    ensures { let lent = parts.entry in
        fault_of result ≡ rest_fault lent.obstacles total lent.kinds.now lent.counts.now lent.vertices.now
        lent.neighbours lent.lines.now }
{
    judge::judge_neighbours(parts.neighbours, parts.lines)?;
    layouts::judge_leftovers(
        parts.obstacles,
        total,
        parts.kinds,
        parts.counts,
        parts.vertices,
    )?;
    Refusal::MissingOrLeftOver.unless(parts.lines.len() <= 4 * parts.neighbours)
}

// The bytes of a scene's parts, put into a buffer that has room for them.
ghost use Rattle.std.specs.Prelude.{◌≡◌, ◌+◌, ◌*◌, ◌≤◌, ◌<◌, length, take, drop};
ghost use Rattle.std.proofs.lemmas.List.Edits.{sets};
ghost use Rattle.fields.specs.Bytes.{big_endian, each};
ghost use Rattle.lines.specs.Lines.{lines_of};
ghost use Rattle.layouts.specs.Layouts.{vertex_total};
ghost use Rattle.scene_records.specs.SceneBytes.{number_bytes, vector_bytes, cart_bytes, obstacle_bytes, record_bytes};
ghost use Rattle.scene_writer.specs.Writing.{obstacle_from, lent_obstacles};

use crate::Parts;
use common::Vec2;
use scene_records::{Cart, Version};

fn put_byte(buffer: &mut [u8], at: usize, x: u8)
    requires { at + 1 ≤ length buffer.old }
    ensures { buffer.new ≡ sets buffer.old at (big_endian 1 x) }
{
    buffer[at] = x;
}

// A number by its pattern.
fn put_number(buffer: &mut [u8], at: usize, x: f32)
    ensures { buffer.new ≡ sets buffer.old at (number_bytes x) }
{
    words::put_word(buffer, at, words::pattern(x));
}

fn put_vector(buffer: &mut [u8], at: usize, v: Vec2)
    requires { at + 8 ≤ length buffer.old }
    ensures { buffer.new ≡ sets buffer.old at (vector_bytes v) }
{
    put_number(buffer, at, v.x);
    put_number(buffer, at + 4, v.y);
}

// The cart, behind length and version.
fn put_cart(buffer: &mut [u8], cart: Cart)
    requires { 39 ≤ length buffer.old }
    ensures { buffer.new ≡ sets buffer.old 3 (cart_bytes cart) }
{
    put_vector(buffer, 3, cart.agent.position);
    put_vector(buffer, 11, cart.agent.velocity);
    put_number(buffer, 19, cart.margin);
    put_number(buffer, 23, cart.horizon);
    put_vector(buffer, 27, cart.wish);
    put_number(buffer, 35, cart.limit);
}

// Numbers, one behind the other.
fn put_numbers(buffer: &mut [u8], at: usize, numbers: &[f32])
    requires { at + 4 * length numbers.now ≤ length buffer.old }
    ensures { buffer.new ≡ sets buffer.old at (each number_bytes numbers.now) }
{
    for (k, number) in numbers.iter().enumerate() {
        put_number(buffer, at + 4 * k, *number);
    }
}

// An obstacle with as many vertices as `count`, which stand from the vertex `start` on: kind, vertex count, vertices.
fn put_obstacle(buffer: &mut [u8], at: usize, kind: u8, count: u8, vertices: &[f32], start: usize)
    requires { (at + 2 + 8 * count ≤ length buffer.old) × (2 * (start + count) ≤ length vertices.now) }
    ensures { buffer.new
        ≡ sets buffer.old at (obstacle_bytes
        (obstacle_from kind count (drop (2 * start) vertices.now))) }
{
    put_byte(buffer, at, kind);
    put_byte(buffer, at + 1, count);
    let end = start + count as usize;
    put_numbers(buffer, at + 2, &vertices[2 * start..2 * end]);
}

// The obstacles, behind their count: kind, vertex count and vertices of each.
fn put_obstacles(buffer: &mut [u8], obstacles: usize, kinds: &[u8], counts: &[u8], vertices: &[f32])
    requires { (obstacles ≤ 16) × (length kinds.now ≡ obstacles) × (length counts.now ≡ obstacles)
        × (length vertices.now ≡ 2 * vertex_total obstacles counts.now) × (length vertices.now ≤ 384)
        × (40 + 2 * obstacles + 4 * length vertices.now ≤ length buffer.old) }
    ensures { buffer.new
        ≡ sets buffer.old 40 (each obstacle_bytes (lent_obstacles kinds.now counts.now
        vertices.now)) }
{
    let mut total = 0;
    for i in 0..obstacles {
        let at = 40 + 2 * i + 8 * total;
        put_obstacle(buffer, at, kinds[i], counts[i], vertices, total);
        total += counts[i] as usize;
    }
}

// The whole record.
pub(crate) fn put_scene(buffer: &mut [u8], parts: Parts)
    requires { (length parts.kinds.now ≡ parts.obstacles) × (length parts.counts.now ≡ parts.obstacles)
        × (length parts.vertices.now ≡ 2 * vertex_total parts.obstacles parts.counts.now)
        × (length parts.lines.now ≡ 4 * parts.neighbours) × (parts.obstacles ≤ 16) × (parts.neighbours ≤ 64)
        × (length parts.vertices.now ≤ 384)
        × (41 + 2 * parts.obstacles + 4 * length parts.vertices.now + 4 * length parts.lines.now ≤ length buffer.old) }
    ensures { let lent = parts.entry in
        buffer.new ≡ sets buffer.old 0 (record_bytes lent.cart (lent_obstacles lent.kinds.now lent.counts.now
        lent.vertices.now) (lines_of lent.lines.now)) }
{
    let at = 40 + 2 * parts.obstacles + 4 * parts.vertices.len();
    words::put_pair(buffer, 0, (at - 1 + 4 * parts.lines.len()) as u16);
    put_byte(buffer, 2, Version::One.byte());
    put_cart(buffer, parts.cart);
    put_byte(buffer, 39, parts.obstacles as u8);
    put_obstacles(
        buffer,
        parts.obstacles,
        parts.kinds,
        parts.counts,
        parts.vertices,
    );
    put_byte(buffer, at, parts.neighbours as u8);
    put_numbers(buffer, at + 1, parts.lines);
}

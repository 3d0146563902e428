// What is admitted of the cart and of the neighbour lines.
ghost use Rattle.std.specs.Prelude.{◌≡◌, ◌*◌, ◌≤◌, ◌<◌, length, drop, get_or, IfOk, IfErr};
ghost use Rattle.std.specs.Float.{nan};
ghost use Rattle.admission.specs.Faults.{fault_of};
ghost use Rattle.admission.specs.Refusals.{number_of};
ghost use Rattle.scene_writer.specs.Writing.{cart_fault, lent_line_fault, neighbours_fault};

use admission::{Judged, Refusal, is_inside, is_within};
use common::Vec2;
use dodgy_2d::Scene;
use lines::Line;
use scene_records::Cart;

// Position, velocity, margin, horizon, wish and limit.
#[tactic(auto, using(crate::proofs::Judging::judging), unfolding(crate::specs::Writing::cart_fault))]
pub(crate) fn judge_cart(cart: Cart) -> Judged
    ensures { fault_of result ≡ cart_fault cart }
{
    obstacles::judge_agent(cart.agent, cart.margin, cart.horizon)?;
    obstacles::judge_vector(cart.wish)?;
    Refusal::OutOfRange.unless(is_inside(0.0, Vec2::LONGEST, cart.limit))
}

// The number at a place: not lent (2).
fn number_at(numbers: &[f32], at: usize) -> Result<f32, Refusal>
    ensures there { IfOk result (λ x. (at < length numbers.now) × (x ≡ get_or numbers.now at nan)) }
    ensures missing { IfErr result (λ e. (length numbers.now ≤ at) × (number_of e ≡ 2)) }
{
    Refusal::MissingOrLeftOver.unless(at < numbers.len())?;
    Ok(numbers[at])
}

// The line at an index: each component of its point, not lent (2), not finite or out of range (6); each of its
// direction, not lent (2), not finite (6); then the direction's band (7).
fn judge_line(lines: &[f32], i: usize) -> Judged
    requires { i ≤ 64 }
    ensures { fault_of result ≡ lent_line_fault (drop (4 * i) lines.now) }
{
    let k = 4 * i;
    let point_x = number_at(lines, k)?;
    Refusal::OutOfRange.unless(is_within(Line::REACH, point_x))?;
    let point_y = number_at(lines, k + 1)?;
    Refusal::OutOfRange.unless(is_within(Line::REACH, point_y))?;
    let x = number_at(lines, k + 2)?;
    Refusal::OutOfRange.unless(arithmetic::is_finite(x))?;
    let y = number_at(lines, k + 3)?;
    Refusal::OutOfRange.unless(arithmetic::is_finite(y))?;
    let squared = Vec2::new(x, y).length_squared();
    Refusal::OutOfBand.unless(is_inside(Line::BAND_LOW, Line::BAND_HIGH, squared))
}

// More than 64 neighbours (4), then as many lines as `neighbours`.
pub(crate) fn judge_neighbours(neighbours: usize, lines: &[f32]) -> Judged
    ensures { fault_of result ≡ neighbours_fault neighbours lines.now }
{
    Refusal::TooMany.unless(neighbours <= Scene::MOST_NEIGHBOURS)?;
    for i in 0..neighbours {
        judge_line(lines, i)?;
    }
    Ok(())
}

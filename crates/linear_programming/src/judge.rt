// What is admitted of a list: how many numbers it has, and a wish with its speed limit.
ghost use Rattle.std.specs.Prelude.{◌≡◌};
ghost use Rattle.admission.specs.Faults.{fault_of};
ghost use Rattle.linear_programming.specs.Admit.{count_fault, wish_fault};

use admission::{Judged, Refusal, is_inside, is_within};
use common::Vec2;
use lines::Line;

// The first fault of a wish with its limit: 6 for a number that is not finite or out of range.
pub(crate) fn judge_wish(wish: Vec2, limit: f32) -> Judged
    ensures { fault_of result ≡ wish_fault wish limit }
{
    let x = Refusal::OutOfRange.unless(is_within(Vec2::REACH, wish.x));
    let y = Refusal::OutOfRange.unless(is_within(Vec2::REACH, wish.y));
    let speed = Refusal::OutOfRange.unless(is_inside(0.0, Vec2::LONGEST, limit));
    x.and(y).and(speed)
}

// Numbers that are no whole lines (2), then too many lines (4).
pub(crate) fn judge_count(numbers: &[f32]) -> Judged
    ensures { fault_of result ≡ count_fault numbers.now }
{
    let whole = Refusal::MissingOrLeftOver.unless(numbers.len() % 4 == 0);
    let few = Refusal::TooMany.unless(numbers.len() / 4 <= Line::MOST);
    whole.and(few)
}

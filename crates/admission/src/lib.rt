// Judgements of what is admitted (01, "What is admitted", "Refusal numbers"): fine, or the first refusal.
#![tactic(auto)]

ghost use Rattle.std.specs.Prelude.{◌≡◌};
ghost use Rattle.admission.specs.Faults.{unless, first_told, within, inside, fits_behind};
ghost use Rattle.admission.specs.Heads.{is_kind, room_for, is_empty_open};

mod refusal;

pub use refusal::Refusal;

// Fine, or the first fault, by its refusal.
pub type Judged = Result<(), Refusal>;

// Whether a number's magnitude is at most the bound. A NaN's is not. It is asked of both ends, which takes no magnitude.
pub fn is_within(bound: f32, x: f32) -> bool
    ensures { result ≡ within bound x }
{
    is_inside(-bound, bound, x)
}

// Whether a number lies between two ends, which are admitted. A NaN does not.
pub fn is_inside(low: f32, high: f32, x: f32) -> bool
    ensures { result ≡ inside low high x }
{
    low <= x && x <= high
}

// Whether as many as `more` fit behind those `before`, where `most` do. No sum is made that could overflow.
pub fn fits_behind(most: usize, before: usize, more: usize) -> bool
    ensures { result ≡ fits_behind most before more }
{
    if before > most {
        return false;
    }
    more <= most - before
}

// The fault, unless the rule passes.
pub fn fault_unless<E: Drop>(passes: bool, fault: E) -> Result<(), E>
    ensures { result ≡ unless passes fault }
{
    if passes {
        return Ok(());
    }
    Err(fault)
}

// The first fault of two judgements.
pub fn first_of<E: Drop>(first: Result<(), E>, second: Result<(), E>) -> Result<(), E>
    ensures { result ≡ first_told first second }
{
    first?;
    second
}

// An obstacle's kind, and how many vertices it has.
#[derive(Clone, Copy)]
pub struct Head {
    pub kind: u8,
    pub count: usize,
}

impl Head {
    // The kinds of an obstacle.
    pub const CLOSED: u8 = 1;

    pub const OPEN: u8 = 2;

    // The most vertices of one obstacle, and so the most lines that it makes.
    pub const MOST: usize = 64;

    // The most vertices of all obstacles of a scene together.
    pub const MOST_TOGETHER: usize = 192;

    // Whether a number is the kind of an obstacle.
    pub fn is_kind(kind: u8) -> bool
        ensures { result ≡ is_kind kind }
    {
        kind == Head::CLOSED || kind == Head::OPEN
    }

    // Whether an obstacle may have as many vertices as `count`, behind the `total` vertices of the obstacles before it.
    pub fn has_room(total: usize, count: usize) -> bool
        ensures { result ≡ room_for total count }
    {
        if count > Head::MOST {
            return false;
        }
        fits_behind(Head::MOST_TOGETHER, total, count)
    }

    // Whether an obstacle is open and has no vertices, which gets 5. A closed one may have none.
    pub fn is_empty_open(kind: u8, count: usize) -> bool
        ensures { result ≡ is_empty_open kind count }
    {
        kind == Head::OPEN && count == 0
    }
}

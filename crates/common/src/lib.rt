// Vectors of two f32, their determinant, and when two lines meet (the Rust's common.rs, and of glam's Vec2 what its
// three files use). Each operation rounds once, in glam's order, with no fused multiply. Each answers for every f32, a
// NaN and the infinities too.
#![tactic(auto)]

ghost use Rattle.std.specs.Prelude.{◌≡◌};
ghost use Rattle.common.specs.Vectors.{vec, add_of, sub_of, neg_of, mul_of, div_of, dot_of, perp_of, length_squared_of, distance_squared_of, normalize_of, eq_of, determinant_of};
ghost use Rattle.common.specs.Meetings.{times_of};

#[derive(Clone, Copy, Debug, PartialEq)]
pub struct Vec2 {
    pub x: f32,
    pub y: f32,
}

// The 2D cross product of a and b.
pub fn determinant(a: Vec2, b: Vec2) -> f32
    ensures { result ≡ determinant_of a b }
{
    a.x * b.y - a.y * b.x
}

// The times at which two lines meet, along the first as x and along the second as y; none where they are parallel. They
// are lines, not segments: a time is any number, below 0 and above 1 too. Only a determinant of exactly 0, of either
// sign, counts as parallel; where it is a NaN, both times are.
pub fn time_to_intersect_lines(
    line_1_start: Vec2,
    line_1_end: Vec2,
    line_2_start: Vec2,
    line_2_end: Vec2,
) -> Option<Vec2>
    ensures { result ≡ times_of line_1_start line_1_end line_2_start line_2_end }
{
    let relative_line_1_start = line_1_start.sub(line_2_start);
    let line_1_delta = line_1_end.sub(line_1_start);
    let line_2_delta = line_2_end.sub(line_2_start);
    let matrix_determinant = determinant(line_2_delta, line_1_delta);
    if matrix_determinant == 0.0 {
        return None;
    }
    // the inverse of the line equation matrix
    let along_1 = determinant(relative_line_1_start, line_2_delta);
    let along_2 = determinant(relative_line_1_start, line_1_delta);
    Some(Vec2::new(along_1, along_2).div(matrix_determinant))
}

impl Vec2 {
    pub fn new(x: f32, y: f32) -> Vec2
        ensures { result ≡ vec x y }
    {
        Vec2 { x, y }
    }

    pub const ZERO: Vec2 = Vec2 { x: 0.0, y: 0.0 };

    // The greatest magnitude of a component that is admitted: of a position, a velocity, a wish or a vertex.
    pub const REACH: f32 = 65536.0;

    // The greatest length that is admitted as a speed limit or a margin.
    pub const LONGEST: f32 = 1024.0;

    pub fn add(self, b: Vec2) -> Vec2
        ensures { result ≡ add_of self b }
    {
        Vec2 {
            x: self.x + b.x,
            y: self.y + b.y,
        }
    }

    pub fn sub(self, b: Vec2) -> Vec2
        ensures { result ≡ sub_of self b }
    {
        Vec2 {
            x: self.x - b.x,
            y: self.y - b.y,
        }
    }

    // The vector with both signs turned, a zero's too.
    pub fn neg(self) -> Vec2
        ensures { result ≡ neg_of self }
    {
        Vec2 {
            x: -self.x,
            y: -self.y,
        }
    }

    // The vector times a number. The Rust writes the number on either side: a product of two f32 is the same either way round.
    pub fn mul(self, k: f32) -> Vec2
        ensures { result ≡ mul_of self k }
    {
        Vec2 {
            x: self.x * k,
            y: self.y * k,
        }
    }

    // The vector over a number: each component is divided.
    pub fn div(self, k: f32) -> Vec2
        ensures { result ≡ div_of self k }
    {
        Vec2 {
            x: self.x / k,
            y: self.y / k,
        }
    }

    pub fn dot(self, b: Vec2) -> f32
        ensures { result ≡ dot_of self b }
    {
        self.x * b.x + self.y * b.y
    }

    // The vector turned to the left by a right angle.
    pub fn perp(self) -> Vec2
        ensures { result ≡ perp_of self }
    {
        Vec2 {
            x: -self.y,
            y: self.x,
        }
    }

    pub fn length_squared(self) -> f32
        ensures { result ≡ length_squared_of self }
    {
        self.dot(self)
    }

    pub fn distance_squared(self, b: Vec2) -> f32
        ensures { result ≡ distance_squared_of self b }
    {
        self.sub(b).length_squared()
    }

    // The vector times 1 / length. Where the squared length is or rounds to 0 that is no unit vector: infinities or NaNs;
    // where it is infinite, finite components become zeros.
    pub fn normalize(self) -> Vec2
        ensures { result ≡ normalize_of self }
    {
        self.mul(1.0 / arithmetic::sqrt(self.length_squared()))
    }

    // Whether both components are equal by value: zeros of either sign are, a NaN is equal to nothing.
    // kept: promised: Vec2::eq
    pub fn eq(self, b: Vec2) -> bool
        ensures { result ≡ eq_of self b }
    {
        self == b
    }
}

// Arithmetic on f32 that Rattle's operators do not have (01, "Port order"). Each answers for every f32, a NaN and the
// infinities too.
#![tactic(auto)]

ghost use Rattle.std.specs.Prelude.{◌≡◌};
ghost use Rattle.arithmetic.specs.Binary32.{finite};
ghost use Rattle.arithmetic.specs.Ends.{abs_of, min_of, max_of, clamp_of};
ghost use Rattle.arithmetic.specs.Root.{sqrt_of};

mod root;

// The square root, correctly rounded. -0 gives -0, a number below 0 or a NaN gives a NaN, and +0 and infinity give themselves.
pub fn sqrt(x: f32) -> f32
    ensures { result ≡ sqrt_of x }
{
    if x != x {
        return x;
    }
    if x == 0.0 {
        return x;
    }
    if x < 0.0 {
        return 0.0 / 0.0;
    }
    let b = f32::to_bits(x);
    if b == 0x7f80_0000 {
        return x;
    }
    f32::from_bits(root::root_bits(b))
}

// x without its sign, a zero's and an infinity's too. A NaN stays one. -x is taken before any test, and a zero is
// tested first: so compiled code clears the sign, and no jump hangs on what no processor can guess.
pub fn abs(x: f32) -> f32
    ensures { result ≡ abs_of x }
{
    let turned = -x;
    if x == 0.0 {
        return 0.0;
    }
    if x < 0.0 {
        return turned;
    }
    x
}

// The lesser of two. The old one where they are equal; the other one where one is a NaN.
pub fn min(old: f32, new: f32) -> f32
    ensures { result ≡ min_of old new }
{
    if new < old {
        return new;
    }
    if old != old {
        return new;
    }
    old
}

// The greater of two. The old one where they are equal; the other one where one is a NaN.
pub fn max(old: f32, new: f32) -> f32
    ensures { result ≡ max_of old new }
{
    if old < new {
        return new;
    }
    if old != old {
        return new;
    }
    old
}

// The left end if x is less than it, else the right end if x is greater, else x.
pub fn clamp(x: f32, left: f32, right: f32) -> f32
    ensures { result ≡ clamp_of x left right }
{
    if x < left {
        return left;
    }
    if x > right {
        return right;
    }
    x
}

// Whether x is neither a NaN nor an infinity: only then is x less x a zero.
pub fn is_finite(x: f32) -> bool
    ensures { result ≡ finite x }
{
    x - x == 0.0
}

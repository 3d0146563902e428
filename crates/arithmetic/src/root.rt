// The root of a positive finite f32, from its bit pattern to the root's, in whole numbers: a first guess from a table, a step of
// Newton's, and one down where that is one too many.
ghost use Rattle.std.specs.Prelude.{◌≡◌, ◌+◌, ◌-◌, ◌*◌, ◌/◌, ◌%◌, ◌^◌, ◌≤◌, ◌<◌};
ghost use Rattle.arithmetic.specs.Root.{worth, root_bits};
ghost use Rattle.arithmetic.specs.Whole.{RootNearest, RootNearestOrNext, TakenApart};
ghost use Rattle.arithmetic.specs.Guesses.{RootWithin, farthest, RowTest};

// A number of 24 binary digits, and how often it is doubled, counted from 2^-172.
#[derive(Clone, Copy)]
struct Parts {
    digits: u64,
    shift: u32,
}

// The table of first guesses at the root of w, by w / 2^43. An entry is the guess at the least w of its row and, in units
// of 2^24, how far the guesses rise from there to the next row.
fn row(i: u64) -> u64
    requires { (8 ≤ i) × (i < 32) }
    ensures { RowTest i (result % 16777216) (result / 16777216) }
{
    match i {
        8 => 8537161860945,
        9 => 8074648078823,
        10 => 7680048439569,
        11 => 7338196343944,
        12 => 7038287267978,
        13 => 6772402368210,
        14 => 6534552180549,
        15 => 6320139749479,
        16 => 6125524420519,
        17 => 5947870845346,
        18 => 5784813437511,
        19 => 5634489926908,
        20 => 5495289701558,
        21 => 5365937693708,
        22 => 5245309830471,
        23 => 5132466588272,
        24 => 5026619438422,
        25 => 4927046961048,
        26 => 4833178731182,
        27 => 4744477878251,
        28 => 4660474640514,
        29 => 4580799919500,
        30 => 4505067839497,
        31 => 4432976410854,
        _ => 0,
    }
}

// The first guess at the root of w: on the straight line of its row, rounded down. The table's rule is how far it may err.
fn first_guess(w: u64) -> u64
    requires { (2 ^ 46 ≤ w) × (w < 2 ^ 48) }
    ensures { RootWithin farthest w result }
{
    let entry = row(w / 0x800_0000_0000);
    let rise = entry / 0x100_0000 * (w % 0x800_0000_0000);
    entry % 0x100_0000 + rise / 0x800_0000_0000
}

// Newton's step from the guess g: the mean of g and w / g, rounded up. So it is never below the nearest whole number, and
// from a guess that keeps the rule at most one above.
fn nearer(w: u64, g: u64) -> u64
    requires { (2 ^ 46 ≤ w) × (w < 2 ^ 48) × RootWithin farthest w g }
    ensures { RootNearestOrNext w result × (result < 2 ^ 26) }
{
    (g + w / g + 1) / 2
}

// The correction: one down, where the root lies below the midpoint of m - 1 and m.
fn corrected(w: u64, m: u64) -> u64
    requires { (0 < w) × (w < 2 ^ 48) × RootNearestOrNext w m × (m < 2 ^ 26) }
    ensures { RootNearest w result }
{
    if w + m <= m * m {
        return m - 1;
    }
    m
}

// The whole number nearest to the root of w.
fn root_nearest(w: u64) -> u64
    requires { (2 ^ 46 ≤ w) × (w < 2 ^ 48) }
    ensures { RootNearest w result }
{
    corrected(w, nearer(w, first_guess(w)))
}

// A pattern without a leading digit: it is doubled until it has 24 digits.
fn lifted(b: u32) -> Parts
    requires { (0 < b) × (b < 8388608) }
    ensures { TakenApart b result.digits result.shift }
{
    let mut digits = b as u64;
    let mut shift: u32 = 23;
    // kept: no plainer: nothing is gone over, a number is doubled until it has its digits
    while digits < 0x80_0000 {
        digits = digits * 2;
        shift = shift - 1;
    }
    Parts { digits, shift }
}

// A positive finite pattern taken apart.
fn apart(b: u32) -> Parts
    requires { (0 < b) × (b < 2139095040) }
    ensures { TakenApart (worth b) result.digits result.shift }
{
    if b < 0x80_0000 {
        return lifted(b);
    }
    let digits = (b % 0x80_0000) as u64 + 0x80_0000;
    Parts {
        digits,
        shift: b / 0x80_0000 + 22,
    }
}

// The digits with 23 or 24 places behind them, so that what is left of the shift is even.
fn spread(digits: u64, shift: u32) -> u64
    requires { digits < 16777216 }
    ensures { result ≡ digits * 2 ^ (24 - shift % 2) }
{
    let mut even = digits;
    if shift % 2 == 0 {
        even = digits * 2;
    }
    even * 0x80_0000
}

// The pattern of the root of the number with the pattern b.
pub(crate) fn root_bits(b: u32) -> u32
    requires { (0 < b) × (b < 2139095040) }
    ensures { result ≡ root_bits (worth b) }
{
    let p = apart(b);
    let shift = p.shift;
    let m = root_nearest(spread(p.digits, shift)) as u32;
    (shift + 103) / 2 * 0x80_0000 + m
}

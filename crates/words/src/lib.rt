// Big-endian words of four bytes and pairs of two in lent bytes, read and written, and binary32 numbers by their pattern.
#![tactic(auto)]

ghost use Rattle.std.specs.Prelude.{◌≡◌, ◌+◌, ◌%◌, ◌<◌, get_or, set};
ghost use Rattle.std.proofs.lemmas.List.Edits.{sets};
ghost use Rattle.std.specs.Float.{binary32};
ghost use Rattle.std.specs.Float.Ieee.{of_bits, to_bits, nan_bits};
ghost use Rattle.words.specs.Words.{pair_of, word_of, pair_bytes, word_bytes};
ghost use Rattle.words.specs.Patterns.{has_pattern};

// The four bytes from `at` on as one number, the first byte highest. A byte past the slice's end counts as 0.
pub fn word_at(s: &[u8], at: usize) -> u32
    ensures { result ≡ word_of s.now at }
{
    byte_at(s, at, 0) * 0x100_0000
        + byte_at(s, at, 1) * 0x1_0000
        + byte_at(s, at, 2) * 0x100
        + byte_at(s, at, 3)
}

// The two bytes from `at` on as one number, the first byte highest. A byte past the slice's end counts as 0.
pub fn pair_at(s: &[u8], at: usize) -> u16
    ensures { result ≡ pair_of s.now at }
{
    (byte_at(s, at, 0) * 0x100 + byte_at(s, at, 1)) as u16
}

// Stores a number's four bytes from `at` on, the highest first. A byte past the slice's end is not stored.
pub fn put_word(s: &mut [u8], at: usize, x: u32)
    ensures { s.new ≡ sets s.old at (word_bytes x) }
{
    put_byte(s, at, 0, x / 0x100_0000);
    put_byte(s, at, 1, x / 0x1_0000);
    put_byte(s, at, 2, x / 0x100);
    put_byte(s, at, 3, x);
}

// Stores a number's two bytes from `at` on, the highest first. A byte past the slice's end is not stored.
pub fn put_pair(s: &mut [u8], at: usize, x: u16)
    ensures { s.new ≡ sets s.old at (pair_bytes x) }
{
    put_byte(s, at, 0, (x / 0x100) as u32);
    put_byte(s, at, 1, x as u32);
}

// The binary32 number with the pattern. Every NaN pattern gives the NaN, whose own bits are not promised.
pub fn number(pattern: u32) -> f32
    ensures { result ≡ of_bits binary32 pattern }
{
    if is_nan(pattern) {
        return 0.0 / 0.0;
    }
    f32::from_bits(pattern)
}

// The pattern of a number, bit for bit: -0 and +0 differ. The NaN, whose own bits are not promised, gets the quiet one
// without a sign.
pub fn pattern(value: f32) -> u32
    ensures { result ≡ to_bits binary32 value }
{
    if value != value {
        return 0x7fc0_0000;
    }
    f32::to_bits(value)
}

// Whether x is the number with the pattern, bit for bit: -0 and +0 differ. A NaN has every NaN pattern.
pub fn has_pattern(x: f32, pattern: u32) -> bool
    ensures { result ≡ has_pattern x pattern }
{
    if x != x {
        return is_nan(pattern);
    }
    f32::to_bits(x) == pattern
}

// Whether the pattern is a NaN's: without its sign it lies above infinity's.
fn is_nan(pattern: u32) -> bool
    ensures { result ≡ nan_bits binary32 pattern }
{
    pattern % 0x8000_0000 > 0x7f80_0000
}

// The byte k places behind `at`, or 0 past the end. The two are added only where the sum is an index.
fn byte_at(s: &[u8], at: usize, k: usize) -> u32
    ensures { (result ≡ get_or s.now (at + k) 0) × (result < 256) }
{
    if at < s.len() {
        if k < s.len() - at {
            return wide(s[at + k]);
        }
    }
    0
}

// Stores the lowest byte of a number k places behind `at`, or nothing past the end.
fn put_byte(s: &mut [u8], at: usize, k: usize, x: u32)
    ensures { s.new ≡ set s.old (at + k) (x % 256) }
{
    if at < s.len() {
        if k < s.len() - at {
            s[at + k] = (x % 0x100) as u8;
        }
    }
}

fn wide(x: u8) -> u32
    ensures { (result ≡ x) × (result < 256) }
{
    x as u32
}

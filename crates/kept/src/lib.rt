// What a program keeps of one read for the next: bytes moved to the start of its buffer.
#![tactic(auto)]

ghost use Rattle.std.specs.Prelude.{◌≡◌};
ghost use Rattle.kept.specs.Kept.{kept, kept_over};

// Moves the bytes from `from` up to `end` to the buffer's start, and answers how many they are; bytes behind them keep
// their contents. Where these are no places of the buffer, nothing is moved.
pub fn keep(buffer: &mut [u8], from: usize, end: usize) -> usize
    ensures { kept result buffer.new ≡ kept_over from end buffer.old }
{
    if end < from {
        return 0;
    }
    if buffer.len() < end {
        return 0;
    }
    buffer.copy_within(from..end, 0);
    end - from
}

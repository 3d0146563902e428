// Answer records (01, "Records (ours)"): an outcome in 18 bytes or a refusal in 4, written to lent bytes and read from them.
#![tactic(auto)]

ghost use Rattle.std.specs.Prelude.{◌≡◌, ◌-◌, ◌<◌, length};
ghost use Rattle.admission.specs.Refusals.{number_of};
ghost use Rattle.admission.specs.Faults.{fault_of};
ghost use Rattle.answer_records.specs.Answers.{refusal_length, refused_code, answer_bytes, refusal_bytes, laid, written_of};
ghost use Rattle.answer_records.specs.Replies.{is_length, length_of_code, answer_fault, outcome_in, said_of, answer_in};

use admission::{Judged, Refusal};

// An outcome as its record has it: the point by its bits, FFFF where no line failed.
#[derive(Clone, Copy, Debug, PartialEq, Eq)]
pub struct Answer {
    pub code: u8,
    pub x: u32,
    pub y: u32,
    pub failed: u16,
    pub probes: u32,
}

impl Answer {
    // The bytes of an outcome's record, and of a refusal's.
    pub const BYTES: usize = 18;

    pub const REFUSAL_BYTES: usize = 4;

    // What the length field of each says: the bytes behind it.
    pub const LENGTH: u16 = 16;

    pub const REFUSAL_LENGTH: u16 = 2;

    pub const VERSION: u8 = 1;

    pub const NO_LINE: u16 = 0xffff;

    // A refusal's code is this and its number.
    pub const REFUSED: u8 = 128;
}

// What a record says: an outcome, or a scene's refusal.
#[derive(Clone, Copy, Debug, PartialEq, Eq)]
pub enum Reply {
    Outcome(Answer),
    Refusal(Refusal),
}

// Writes an outcome's record to the buffer's start; bytes behind it keep their contents. A buffer of fewer than 18
// bytes is refused (10) and keeps its contents.
pub fn write_answer(buffer: &mut [u8], answer: Answer) -> Judged
    ensures { written_of result buffer.new ≡ laid (answer_bytes answer) buffer.old }
{
    if buffer.len() < Answer::BYTES {
        return Err(Refusal::NoRoom);
    }
    words::put_pair(buffer, 0, Answer::LENGTH);
    buffer[2] = Answer::VERSION;
    buffer[3] = answer.code;
    words::put_word(buffer, 4, answer.x);
    words::put_word(buffer, 8, answer.y);
    words::put_pair(buffer, 12, answer.failed);
    words::put_word(buffer, 14, answer.probes);
    Ok(())
}

// Writes the record of a refused scene to the buffer's start; bytes behind it keep their contents. A buffer of fewer
// than 4 bytes is refused (10) and keeps its contents. The code is 128 + number modulo 256, and the reader takes it for
// the numbers 1 to 10 and 14 alone.
pub fn write_refusal(buffer: &mut [u8], number: u8) -> Judged
    ensures { written_of result buffer.new ≡ laid (refusal_bytes number) buffer.old }
{
    if buffer.len() < Answer::REFUSAL_BYTES {
        return Err(Refusal::NoRoom);
    }
    words::put_pair(buffer, 0, Answer::REFUSAL_LENGTH);
    buffer[2] = Answer::VERSION;
    buffer[3] = std::num::wrapping_add_u8(Answer::REFUSED, number);
    Ok(())
}

// What one whole record says. Fewer than two bytes, a length that is neither 16 nor 2, or bytes that do not match it,
// are refused with 2; another version with 1; a code not of its length with 2. Point, failed line and probes are taken
// as they stand.
pub fn read_answer(bytes: &[u8]) -> Result<Reply, Refusal>
    ensures { said_of result ≡ answer_in bytes.now }
{
    judge_answer(bytes)?;
    if words::pair_at(bytes, 0) == Answer::LENGTH {
        return Ok(Reply::Outcome(outcome_in(bytes)));
    }
    Ok(Reply::Refusal(refusal_with(bytes[3])))
}

// The first fault of a record.
fn judge_answer(bytes: &[u8]) -> Judged
    ensures { fault_of result ≡ answer_fault bytes.now }
{
    if bytes.len() < 2 {
        return Err(Refusal::MissingOrLeftOver);
    }
    let length = words::pair_at(bytes, 0);
    if !is_length(length) {
        return Err(Refusal::MissingOrLeftOver);
    }
    if bytes.len() != 2 + length as usize {
        return Err(Refusal::MissingOrLeftOver);
    }
    let version = Refusal::OtherVersion.unless(bytes[2] == Answer::VERSION);
    let code = Refusal::MissingOrLeftOver.unless(length_of_code(bytes[3]) == length);
    version.and(code)
}

// The lengths that a record may name: an outcome's and a refusal's.
fn is_length(length: u16) -> bool
    ensures { result ≡ is_length length }
{
    length == Answer::LENGTH || length == Answer::REFUSAL_LENGTH
}

// The length that goes with a code: the one place that knows the codes. No record names 0, so every other code is refused.
fn length_of_code(code: u8) -> u16
    ensures { result ≡ length_of_code code }
{
    match code {
        1..=5 => Answer::LENGTH,
        129..=138 | 142 => Answer::REFUSAL_LENGTH,
        _ => 0,
    }
}

// The outcome in a record of 18 bytes.
fn outcome_in(bytes: &[u8]) -> Answer
    requires { 3 < length bytes.now }
    ensures { result ≡ outcome_in bytes.now }
{
    Answer {
        code: bytes[3],
        x: words::word_at(bytes, 4),
        y: words::word_at(bytes, 8),
        failed: words::pair_at(bytes, 12),
        probes: words::word_at(bytes, 14),
    }
}

// The refusal with a code.
fn refusal_with(code: u8) -> Refusal
    requires { length_of_code code ≡ refusal_length }
    ensures { number_of result ≡ code - refused_code }
{
    match code - Answer::REFUSED {
        1 => Refusal::OtherVersion,
        2 => Refusal::MissingOrLeftOver,
        3 => Refusal::UnknownKind,
        4 => Refusal::TooMany,
        5 => Refusal::NoVertices,
        6 => Refusal::OutOfRange,
        7 => Refusal::OutOfBand,
        8 => Refusal::EndsCrossed,
        9 => Refusal::NotAdmitted,
        10 => Refusal::NoRoom,
        _ => Refusal::DoubledVertex,
    }
}

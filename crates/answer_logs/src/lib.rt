// Logs of answer records (02, T-02): a reader that borrows the log and hands on one record at a time.
#![tactic(auto)]

ghost use Rattle.std.specs.Prelude.{◌≡◌, drop};
ghost use Rattle.answer_logs.specs.Logs.{logged_of, handed_on, logged_at, reader_at, reader_behind};
ghost use Rattle.answer_logs.specs.Parts.{waits, whole_at};

use admission::Refusal;
use answer_records::{Answer, Reply};

// What stands at a byte of a log: a record and the byte behind it, or nothing at the log's end. A bad record is refused.
pub type Logged = Result<Option<(Reply, usize)>, Refusal>;

// A log, and the byte in it where the next record begins.
#[derive(Clone, Copy)]
pub struct AnswerLog<'a> {
    pub log: &'a [u8],
    pub at: usize,
}

impl<'a> AnswerLog<'a> {
    // The reader of a log from a byte on.
    pub fn new(log: &'a [u8], at: usize) -> AnswerLog<'a>
        ensures { result ≡ reader_at log.entry at }
    {
        AnswerLog { log, at }
    }

    // The record at the reader's byte, behind which it stands then. It stays at the log's end, and at a bad record.
    pub fn next(&mut self) -> Result<Option<Reply>, Refusal>
        ensures hands { handed_on self.new.at result ≡ logged_at self.old.log.now self.old.at }
        ensures stands { self.new ≡ reader_behind self.old (logged_at self.old.log.now self.old.at) }
    {
        let Some((reply, behind)) = logged_at(self.log, self.at)? else {
            return Ok(None);
        };
        self.at = behind;
        Ok(Some(reply))
    }
}

// The record at a byte of a log, through its reader. At the log's end, and past it, there is none. Fewer than two bytes, a
// length that is neither 16 nor 2, or fewer bytes than it names are refused with 2; another version with 1; a code not of
// its length with 2.
pub fn record_at(log: &[u8], at: usize) -> Logged
    ensures { logged_of result ≡ logged_at log.now at }
{
    let mut reader = AnswerLog::new(log, at);
    let Some(reply) = reader.next()? else {
        return Ok(None);
    };
    Ok(Some((reply, reader.at)))
}

// The record at a byte of a part of a log, behind which more may come: as `record_at`, but there is none also where the
// bytes there may be the start of a record that is not all there.
pub fn whole_at(part: &[u8], at: usize) -> Logged
    ensures { logged_of result ≡ whole_at part.now at }
{
    if waits(part, at) {
        return Ok(None);
    }
    record_at(part, at)
}

// Whether the bytes from `at` on wait for more: the length is missing, or it names no more bytes than an answer has, and
// some are missing.
fn waits(part: &[u8], at: usize) -> bool
    ensures { result ≡ waits (drop at part.now) }
{
    if part.len() <= at {
        return true;
    }
    let there = part.len() - at;
    if there < 2 {
        return true;
    }
    let size = 2 + words::pair_at(part, at) as usize;
    if size > Answer::BYTES {
        return false;
    }
    there < size
}

// What the reader's `next`, and so `record_at`, answers.
fn logged_at(log: &[u8], at: usize) -> Logged
    ensures { logged_of result ≡ logged_at log.now at }
{
    if log.len() <= at {
        return Ok(None);
    }
    if log.len() - at < 2 {
        return Err(Refusal::MissingOrLeftOver);
    }
    let behind = at + 2 + words::pair_at(log, at) as usize;
    Refusal::MissingOrLeftOver.unless(behind <= log.len())?;
    // kept: must-fail fault_handed_on_as_refusal plants its mistake in an arm, where `?` has none
    match answer_records::read_answer(&log[at..behind]) {
        Ok(reply) => Ok(Some((reply, behind))),
        Err(refusal) => Err(refusal),
    }
}

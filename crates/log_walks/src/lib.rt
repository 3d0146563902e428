// Walks over the records of a log that count its fallbacks, the outcomes 3, 4 and 5 (02, T-10).
#![tactic(auto)]

ghost use Rattle.std.specs.Prelude.{◌≡◌, ℕ, Option};
ghost use Rattle.arithmetic.specs.Binary32.{when◌then◌else◌};
ghost use Rattle.answer_records.specs.Numbers.{numbered};
ghost use Rattle.answer_logs.specs.Logs.{entry_of};
ghost use Rattle.log_walks.specs.Figures.{is_fallback, fallback, outcome_code};
ghost use Rattle.log_walks.specs.Walks.{walked, passed};

use admission::Refusal;
use answer_records::Reply;

// A record, as the byte behind it and 1 for a fallback, else 0; or none at the end of the bytes. A bad record is refused.
pub type Passed = Result<Option<(usize, u64)>, Refusal>;

// The fallbacks among so many records from the start of the bytes. The first bad one is refused, and the end of the bytes
// before that many with 2.
pub fn walk(bytes: &[u8], count: usize) -> Result<u64, Refusal>
    ensures { numbered result ≡ walked count bytes.now }
{
    let mut at = 0;
    let mut met = 0;
    for _ in 0..count {
        let Some((behind, more)) = pass(answer_logs::record_at(bytes, at))? else {
            return Err(Refusal::MissingOrLeftOver);
        };
        at = behind;
        met += more;
    }
    Ok(met)
}

// A record that a walk passes: the code of its outcome; or none, for a refusal by whatever name or number.
pub trait Recorded: Drop {
    ghost code_of: { Self → Option ℕ };

    fn code(self) -> Option<u8>
        ensures { result ≡ code_of self };
}

impl Recorded for Reply {
    ghost code_of = { outcome_code };

    fn code(self) -> Option<u8> {
        match self {
            Reply::Outcome(answer) => Some(answer.code),
            Reply::Refusal(_) => None,
        }
    }
}

// What stands at a byte of a log, as a walk passes it. What a bad record is refused with is handed on, whatever it is.
pub fn pass<R: Recorded, E: Drop>(
    logged: Result<Option<(R, usize)>, E>,
) -> Result<Option<(usize, u64)>, E>
    ensures { result ≡ passed R.code_of logged }
{
    Ok(logged?.map(|(record, behind)| match record.code() {
        Some(code) => (behind, fallback(code)),
        None => (behind, 0),
    }))
}

// 1 for a record that is a fallback, else 0.
pub fn fallback_in(reply: Reply) -> u64
    ensures { result ≡ fallback (entry_of reply) }
{
    match reply {
        Reply::Outcome(answer) => fallback(answer.code),
        Reply::Refusal(_) => 0,
    }
}

// 1 for an outcome 3, 4 or 5, else 0.
pub fn fallback(code: u8) -> u64
    ensures { result ≡ (when is_fallback code then 1 else 0) }
{
    match code {
        3..=5 => 1,
        _ => 0,
    }
}

// The steps of an append: its parts and its numbers.
ghost use Rattle.std.specs.Prelude.{◌≡◌, ◌+◌, ◌≤◌, length};
ghost use Rattle.admission.specs.Faults.{fault_of};
ghost use Rattle.answer_records.specs.Numbers.{numbered};
ghost use Rattle.answer_records.specs.Replies.{answer_in};
ghost use Rattle.index_building.specs.Indexes.{greatest};
ghost use Rattle.fallback_index.specs.Appends.{grown_fault, grown_by, update_in};

use crate::{Head, Side, questions};
use admission::{Judged, Refusal};
use index_building::{ENTRY_BYTES, Extent, HEAD_BYTES};

// An append's numbers, from a whole log and index: they hand over the parts that it rests on.
pub(crate) fn update_in(log: &[u8], index: &[u8], record: &[u8]) -> Result<Extent, Refusal>
    ensures { numbered result ≡ update_in greatest log.now index.now «record».now }
{
    let head = questions::start_within(index.len(), HEAD_BYTES);
    let first = questions::end_within(index.len(), head, ENTRY_BYTES);
    let count = words::word_at(&index[0..head], 9) as usize;
    let at = questions::start_within(index.len(), index_building::entry_at(count));
    let to = questions::end_within(index.len(), at, ENTRY_BYTES);
    let from = questions::start_within(log.len(), words::word_at(&index[at..to], 0) as usize);
    let past = questions::end_within(log.len(), from, crate::most_bytes(count));
    crate::update_by_parts(
        Head {
            log_length: log.len(),
            index_length: index.len(),
            bytes: &index[0..head],
        },
        &index[head..first],
        Side {
            entry: &index[at..to],
            stretch: &log[from..past],
        },
        record,
    )
}

// The numbers with the new record, behind `count` records with so many fallbacks.
pub(crate) fn grown_by(
    most: u64,
    log_length: usize,
    count: usize,
    before: u64,
    record: &[u8],
) -> Result<Extent, Refusal>
    requires log_length_le_greatest { log_length ≤ greatest }
    requires count_le_greatest { count ≤ greatest }
    requires before_bound { before ≤ greatest + 63 }
    ensures { numbered result ≡ grown_by most (log_length + length «record».now) count before (answer_in «record».now) }
{
    let total = (log_length + record.len()) as u64;
    let raised = (count + 1) as u64;
    let reply = answer_records::read_answer(record)?;
    let extent = Extent {
        bytes: total,
        records: raised,
        fallbacks: before + log_walks::fallback_in(reply),
    };
    judge_grown(most, extent)?;
    Ok(extent)
}

// Whether each of the numbers is within the limit.
fn judge_grown(most: u64, extent: Extent) -> Judged
    ensures { fault_of result ≡ grown_fault most extent.bytes extent.records extent.fallbacks }
{
    Refusal::TooMany.unless(extent.bytes <= most)?;
    Refusal::TooMany.unless(extent.records <= most)?;
    if extent.records % 64 == 0 {
        return Refusal::TooMany.unless(extent.fallbacks <= most);
    }
    Ok(())
}

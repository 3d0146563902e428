// A session in four arrays of the caller's (crate `held_sessions`): each call tells 0 and leaves the session that it
// makes, or the number of its refusal and leaves the arrays as they were.
ghost use Rattle.std.specs.Prelude.{◌≡◌};
ghost use Rattle.admission.specs.Faults.{fault_of};
ghost use Rattle.common.specs.Vectors.{vec};
ghost use Rattle.session.specs.Sessions.{started_as};
ghost use Rattle.session.specs.Batches.{fed_with, fed_as};
ghost use Rattle.session.specs.Withdrawals.{withdrawn_as};
ghost use Rattle.session.specs.Changes.{changed_as, origin_changed_as};
ghost use Rattle.session.specs.Meeting.{unmet_as};
ghost use Rattle.held_sessions.specs.Blocks.{block, session_in, fault_in, left, left_by};
ghost use Rattle.boltmeadow.specs.Sessions.{left_telling, left_changed, unmet_told};

use admission::Judged;
use common::Vec2;
use session::Session;

// How many lines a change by origin withdrew, none where it was refused.
#[repr(C)]
#[derive(Clone, Copy)]
pub struct BmChanged {
    pub refusal: u32,
    pub withdrawn: usize,
}

// The first line of a batch that the session's point does not strictly meet: 1 and the index that it gets, or 0 where
// there is none.
#[repr(C)]
#[derive(Clone, Copy)]
pub struct BmUnmet {
    pub refusal: u32,
    pub found: u32,
    pub index: usize,
}

// A judgement of a call on a session, by the number of its refusal.
fn numbered(judged: Judged) -> Result<(), u8>
    ensures { fault_in result ≡ fault_of judged }
{
    match judged {
        Ok(()) => Ok(()),
        Err(refusal) => Err(refusal.number()),
    }
}

// A session with no lines yet, whatever the arrays held (`Session::start`).
#[unsafe(no_mangle)]
pub extern "C" fn bm_session_start_in(
    lines: &mut [f32; 1024],
    origins: &mut [u32; 768],
    numbers: &mut [f32; 6],
    words: &mut [usize; 8],
    wish_x: f32,
    wish_y: f32,
    limit: f32,
    rigid: usize,
) -> u32
    ensures { left result (block lines.new origins.new numbers.new words.new)
        ≡ left_by (started_as (vec wish_x wish_y) limit rigid)
        (block lines.old origins.old numbers.old words.old) }
{
    match Session::start(Vec2::new(wish_x, wish_y), limit, rigid) {
        Ok(session) => held_sessions::leave(Ok(()), &session, lines, origins, numbers, words),
        Err(refusal) => u32::from(refusal.number()),
    }
}

// The session with a batch of lines, four numbers each, behind its own (`Session::batch`).
#[unsafe(no_mangle)]
pub extern "C" fn bm_session_batch_in(
    lines: &mut [f32; 1024],
    origins: &mut [u32; 768],
    numbers: &mut [f32; 6],
    words: &mut [usize; 8],
    batch: &[f32],
) -> u32
    ensures { left result (block lines.new origins.new numbers.new words.new)
        ≡ left_by (fed_as (session_in (block lines.old origins.old numbers.old words.old))
        batch.now)
        (block lines.old origins.old numbers.old words.old) }
{
    let mut session = held_sessions::session_in(lines, origins, numbers, words);
    let judged = session.batch(batch);
    held_sessions::leave(numbered(judged), &session, lines, origins, numbers, words)
}

// The same for a batch that brings the origins of its lines, three numbers each, or none (`Session::batch_with_origins`).
#[unsafe(no_mangle)]
pub extern "C" fn bm_session_batch_with_origins_in(
    lines: &mut [f32; 1024],
    origins: &mut [u32; 768],
    numbers: &mut [f32; 6],
    words: &mut [usize; 8],
    batch: &[f32],
    brought: &[u32],
) -> u32
    ensures { left result (block lines.new origins.new numbers.new words.new)
        ≡ left_by (fed_with (session_in (block lines.old origins.old numbers.old words.old))
        batch.now brought.now)
        (block lines.old origins.old numbers.old words.old) }
{
    let mut session = held_sessions::session_in(lines, origins, numbers, words);
    let judged = session.batch_with_origins(batch, brought);
    held_sessions::leave(numbered(judged), &session, lines, origins, numbers, words)
}

// The session without the line at an index (`Session::withdraw`).
#[unsafe(no_mangle)]
pub extern "C" fn bm_session_withdraw_in(
    lines: &mut [f32; 1024],
    origins: &mut [u32; 768],
    numbers: &mut [f32; 6],
    words: &mut [usize; 8],
    index: usize,
) -> u32
    ensures { left result (block lines.new origins.new numbers.new words.new)
        ≡ left_by (withdrawn_as (session_in (block lines.old origins.old numbers.old words.old)) index)
        (block lines.old origins.old numbers.old words.old) }
{
    let mut session = held_sessions::session_in(lines, origins, numbers, words);
    let judged = session.withdraw(index);
    held_sessions::leave(numbered(judged), &session, lines, origins, numbers, words)
}

// The session without the lines at several indices, strictly ascending, and with a batch behind those that are left:
// whole or not at all (`Session::change`).
#[unsafe(no_mangle)]
pub extern "C" fn bm_session_change_in(
    lines: &mut [f32; 1024],
    origins: &mut [u32; 768],
    numbers: &mut [f32; 6],
    words: &mut [usize; 8],
    withdrawn: &[usize],
    batch: &[f32],
    brought: &[u32],
) -> u32
    ensures { left result (block lines.new origins.new numbers.new words.new)
        ≡ left_by (changed_as (session_in (block lines.old origins.old numbers.old words.old))
        withdrawn.now batch.now brought.now)
        (block lines.old origins.old numbers.old words.old) }
{
    let mut session = held_sessions::session_in(lines, origins, numbers, words);
    let judged = session.change(withdrawn, batch, brought);
    held_sessions::leave(numbered(judged), &session, lines, origins, numbers, words)
}

// The same for every line whose origin has this kind and place (`Session::change_origin`).
#[unsafe(no_mangle)]
pub extern "C" fn bm_session_change_origin_in(
    lines: &mut [f32; 1024],
    origins: &mut [u32; 768],
    numbers: &mut [f32; 6],
    words: &mut [usize; 8],
    kind: u32,
    place: u32,
    batch: &[f32],
    brought: &[u32],
) -> BmChanged
    ensures { left_telling result (block lines.new origins.new numbers.new words.new)
        ≡ left_changed (origin_changed_as (session_in (block lines.old origins.old numbers.old words.old))
        kind place batch.now brought.now)
        (block lines.old origins.old numbers.old words.old) }
{
    let mut session = held_sessions::session_in(lines, origins, numbers, words);
    let changed = session.change_origin(kind, place, batch, brought);
    let (judged, withdrawn) = match changed {
        Ok(withdrawn) => (Ok(()), withdrawn),
        Err(refusal) => (Err(refusal.number()), 0),
    };
    let refusal = held_sessions::leave(judged, &session, lines, origins, numbers, words);
    BmChanged { refusal, withdrawn }
}

// Asked before a batch is fed: the arrays are only read (`Session::first_unmet`).
#[unsafe(no_mangle)]
pub extern "C" fn bm_session_first_unmet_in(
    lines: &[f32; 1024],
    origins: &[u32; 768],
    numbers: &[f32; 6],
    words: &[usize; 8],
    batch: &[f32],
) -> BmUnmet
    ensures { result ≡ unmet_told (unmet_as
        (session_in (block lines.now origins.now numbers.now words.now))
        batch.now) }
{
    let session = held_sessions::session_in(lines, origins, numbers, words);
    match session.first_unmet(batch) {
        Ok(Some(index)) => BmUnmet {
            refusal: 0,
            found: 1,
            index,
        },
        Ok(None) => BmUnmet {
            refusal: 0,
            found: 0,
            index: 0,
        },
        Err(refusal) => BmUnmet {
            refusal: u32::from(refusal.number()),
            found: 0,
            index: 0,
        },
    }
}

// The batch session (01, "The session has three phases"): lines come in batches, with their origins or without, and can
// be taken back (02, T-12); after each call the session stands as the whole list of its lines does. It can be asked
// which line of a batch matters (02, T-13).
#![tactic(auto)]

ghost use Rattle.std.specs.Prelude.{◌≡◌, ◌+◌, ◌-◌, ◌*◌, ◌/◌, ◌≤◌, true, length, take};
ghost use Rattle.lines.specs.Lines.{most_lines, lines_of};
ghost use Rattle.lines.specs.Origins.{origins_of};
ghost use Rattle.admission.specs.Faults.{fault_of};
ghost use Rattle.linear_programming.specs.Read.{phase_of};
ghost use Rattle.session.specs.Calls.{fed_of, made_of, changed_of, unmet_of};
ghost use Rattle.session.specs.Sessions.{started_of, started_as};
ghost use Rattle.session.specs.Batches.{stored_in, fitting, batch_fault, settled, worked, fed_with, fed_as};
ghost use Rattle.session.specs.Withdrawals.{or_given, fresh_as, left_of, source_in, withdrawal_fault, withdrawn_as};
ghost use Rattle.session.specs.Changes.{change_fault, lowered_by, changed_as, is_of, indices_from, origin_changed_as};
ghost use Rattle.session.specs.Meeting.{is_met, point_now, unmet_as};
ghost use Rattle.session.specs.Handed.{Handed, Begins, Continues, ContinuesWith};

use admission::{Judged, Refusal};
use common::Vec2;
use linear_programming::Phase;
use lines::{Line, Origin};
use pass_2d::Failure;

// The lines so far, the origin of each and their count, what they are solved for, and how they stand: the phase, the
// failed line beside it, and the probes. No origin changes how they stand.
#[derive(Clone, Copy, Debug, PartialEq)]
pub struct Session {
    pub lines: [Line; Line::MOST],
    pub origins: [Origin; Line::MOST],
    pub count: usize,
    pub rigid: usize,
    pub wish: Vec2,
    pub limit: f32,
    pub phase: Phase,
    pub failed: Option<Failure>,
    pub probes: u32,
}

impl Session {
    // A session with no lines yet. Refused: a wish or limit out of range (6), a starting point that is not finite (9).
    // The last stands in 01's order, but no admitted wish and limit meet it (law `never-refused`).
    pub fn start(wish: Vec2, limit: f32, rigid: usize) -> Result<Session, Refusal>
        ensures value { started_of result ≡ started_as wish limit rigid }
        ensures begins { Begins wish limit rigid (started_of result) }
    {
        let standing = linear_programming::solve_linear_program(&[], rigid, limit, wish)?;
        Ok(Session {
            lines: [Line::new(Vec2::ZERO, Vec2::ZERO); Line::MOST],
            origins: [Origin::UNKNOWN; Line::MOST],
            count: 0,
            rigid,
            wish,
            limit,
            phase: standing.phase,
            failed: standing.failed,
            probes: standing.probes,
        })
    }

    // Puts a batch of lines, four numbers each, behind the session's own; then all of them stand. Only the new lines
    // are worked, and their origins are unknown. A refused batch leaves the session as it was: refused are a session of
    // more than 256 lines (4), numbers that are no whole lines (2), too many lines (4), a line (6, 7), the solve (8, 9).
    // The last two stand in 01's order, but no session that a start and later batches handed out meets them (law
    // `never-refused`).
    #[tactic(auto, unfolding(crate::specs::Batches::fed_as))]
    pub fn batch(&mut self, numbers: &[f32]) -> Judged
        ensures value { fed_of result self.new ≡ fed_as self.old numbers.now }
        ensures continues { Handed self.old → Continues self.old numbers.now (fed_of result self.new) }
    {
        self.batch_with_origins(numbers, &[])
    }

    // The same for a batch that brings the origins of its lines, three numbers each, which are kept as they stand; or
    // none. Another count of them is refused (2), as numbers that are no whole lines are.
    pub fn batch_with_origins(&mut self, numbers: &[f32], origins: &[u32]) -> Judged
        ensures value { fed_of result self.new ≡ fed_with self.old numbers.now origins.now }
        ensures continues_with { Handed self.old → ContinuesWith self.old numbers.now origins.now (fed_of result self.new) }
    {
        judge_batch(self.count, numbers, origins)?;
        self.work(numbers, origins)
    }

    // Takes the line at `index` out: the session is then a fresh one with the same wish and limit, fed the lines that
    // are left in their order, with their origins. Later lines move down by one, and the rigid count is one less if the
    // index was below it. Refused, the session is as it was: a session of more than 256 lines (4), an index that is not
    // below the line count (15), the lines that are left, solved afresh (8, 9). The last two stand in 02's order, but no
    // session that was handed out meets them (law `withdrawn-told`).
    pub fn withdraw(&mut self, index: usize) -> Judged
        ensures { fed_of result self.new ≡ withdrawn_as self.old index }
    {
        judge_withdrawal(self.count, index)?;
        *self = self.without(&[index])?;
        Ok(())
    }

    // Takes the lines at several indices of the session as it stands out, strictly ascending, and puts a batch behind
    // those that are left: one step, which happens whole or not at all. The rigid count is one less for each index
    // below it. Refused, the session is as it was: a session of more than 256 lines (4), an index that is not below
    // the line count or not above the one before (15), then as a batch of the lines that are left (2, 4 with the places
    // freed, 6, 7, 8, 9). The last two stand in the order, but no session that was handed out meets them (law
    // `change-told`).
    pub fn change(&mut self, withdrawn: &[usize], numbers: &[f32], origins: &[u32]) -> Judged
        ensures { fed_of result self.new ≡ changed_as self.old withdrawn.now numbers.now origins.now }
    {
        judge_change(self.count, withdrawn)?;
        let mut fresh = self.without(withdrawn)?;
        fresh.batch_with_origins(numbers, origins)?;
        *self = fresh;
        Ok(())
    }

    // The same for every line whose origin has this kind and place, all lines of one obstacle, say: a gate is named by
    // its wall, not by an index that moved. Where no line has it, nothing is withdrawn and the batch is added; how many
    // were withdrawn is told. Kind 0 and place 0 are those of an unknown origin: they name every line that came without
    // one.
    pub fn change_origin(
        &mut self,
        kind: u32,
        place: u32,
        numbers: &[f32],
        origins: &[u32],
    ) -> Result<usize, Refusal>
        ensures { changed_of result self.new ≡ origin_changed_as self.old kind place numbers.now origins.now }
    {
        Refusal::TooMany.unless(self.count <= Line::MOST)?;
        let mut found = [0usize; Line::MOST];
        let n = find(&self.origins[..self.count], kind, place, &mut found);
        self.change(&found[..n], numbers, origins)?;
        Ok(n)
    }

    // The first line of a batch, by the index that it gets in the session, that the session's point does not strictly
    // meet: its determinant is not above 0. Asked of the session as it stands when the batch arrives. Refused is what
    // `batch` refuses before its solve: 4, 2, 4, 6, 7. Where it is `None` and the session is solving, the batch
    // changes neither phase nor point (law `nothing-unmet`).
    pub fn first_unmet(&self, numbers: &[f32]) -> Result<Option<usize>, Refusal>
        ensures { unmet_of result ≡ unmet_as self.now numbers.now }
    {
        judge_batch(self.count, numbers, &[])?;
        let point = self.point_now();
        for i in 0..numbers.len() / 4 {
            if !is_met(point, lines::line_at(numbers, i)) {
                return Ok(Some(self.count + i));
            }
        }
        Ok(None)
    }

    // The point of the session's phase.
    #[tactic(auto, unfolding(crate::specs::Meeting::point_now))]
    fn point_now(&self) -> Vec2
        ensures { result ≡ point_now (phase_of self.now.phase) }
    {
        match self.phase {
            Phase::Solving(point) => point,
            Phase::Relaxing(point, _) => point,
            Phase::RigidFailure(_, point) => point,
        }
    }

    // A batch that is admitted and fits, stored and worked.
    fn work(&mut self, numbers: &[f32], brought: &[u32]) -> Judged
        requires { (self.old.count + length numbers.now / 4 ≤ most_lines)
            × (fitting (length brought.now) (length numbers.now / 4) ≡ true) }
        ensures { fed_of result self.new ≡ settled self.old (lines_of numbers.now) brought.now
            (worked self.old (lines_of numbers.now)) }
    {
        let stored = self.with(numbers, brought);
        let solved = linear_programming::resume_linear_program(
            stored.lines,
            stored.count,
            self.count,
            self.rigid,
            self.limit,
            self.wish,
            self.phase,
            self.failed,
        )?;
        *self = Session {
            phase: solved.phase,
            failed: solved.failed,
            probes: self.probes.wrapping_add(solved.probes),
            ..stored
        };
        Ok(())
    }

    // The session with the lines of a batch behind its own, each with its origin, which is unknown where none is
    // brought. It is not worked yet.
    fn with(&self, numbers: &[f32], brought: &[u32]) -> Session
        requires { (self.now.count + length numbers.now / 4 ≤ most_lines)
            × (fitting (length brought.now) (length numbers.now / 4) ≡ true) }
        ensures { result ≡ stored_in self.now (lines_of numbers.now) brought.now }
    {
        let from = self.count;
        let mut lines = self.lines;
        let mut origins = self.origins;
        for i in 0..numbers.len() / 4 {
            lines[from + i] = lines::line_at(numbers, i);
            origins[from + i] = lines::origin_at(brought, i);
        }
        Session {
            lines,
            origins,
            count: from + numbers.len() / 4,
            ..*self
        }
    }

    // A fresh session, fed the lines of this one but for those at several indices, with their origins.
    fn without(&self, withdrawn: &[usize]) -> Result<Session, Refusal>
        requires { (length withdrawn.now ≤ self.now.count) × (self.now.count ≤ most_lines) }
        ensures { made_of self.now result ≡ or_given self.now (fresh_as self.now.wish self.now.limit
            (lowered_by withdrawn.now self.now.rigid)
            (left_of withdrawn.now self.now.count self.now.lines)
            (left_of withdrawn.now self.now.count self.now.origins)) }
    {
        let mut numbers = [0.0f32; 4 * Line::MOST];
        let mut threes = [0u32; 3 * Line::MOST];
        self.lay(withdrawn, &mut numbers, &mut threes);
        let left = self.count - withdrawn.len();
        let mut fresh = Session::start(self.wish, self.limit, lower_by(withdrawn, self.rigid))?;
        fresh.batch_with_origins(&numbers[..4 * left], &threes[..3 * left])?;
        Ok(fresh)
    }

    // The lines but for those at several indices, and their origins, laid out as numbers.
    fn lay(&self, withdrawn: &[usize], numbers: &mut [f32], threes: &mut [u32])
        requires { (length withdrawn.now ≤ self.now.count) × (self.now.count ≤ most_lines)
            × (length numbers.old ≡ 4 * most_lines) × (length threes.old ≡ 3 * most_lines) }
        ensures lines { take (self.now.count - length withdrawn.now) (lines_of numbers.new)
            ≡ left_of withdrawn.now self.now.count self.now.lines }
        ensures origins { take (self.now.count - length withdrawn.now) (origins_of threes.new)
            ≡ left_of withdrawn.now self.now.count self.now.origins }
    {
        for n in 0..self.count - withdrawn.len() {
            let from = source_in(withdrawn, n);
            lines::put_line(numbers, n, self.lines[from]);
            lines::put_origin(threes, n, self.origins[from]);
        }
    }
}

// Whether so many numbers are the origins of so many lines: none, or three a line.
#[tactic(auto, unfolding(crate::specs::Batches::fitting))]
fn is_fitting(numbers: usize, lines: usize) -> bool
    ensures { result ≡ fitting numbers lines }
{
    numbers == 0 || (numbers % 3 == 0 && numbers / 3 == lines)
}

// The first fault of a batch for a session of `count` lines: more lines than a session holds (4), numbers that are no
// whole lines, or origins that are not theirs (2), too many lines with those that stand (4), a line (6, 7).
#[tactic(auto, using(lines::proofs::Rows::lines_long), unfolding(crate::specs::Batches::batch_fault))]
fn judge_batch(count: usize, numbers: &[f32], origins: &[u32]) -> Judged
    ensures { fault_of result ≡ batch_fault count numbers.now origins.now }
{
    let more = numbers.len() / 4;
    Refusal::TooMany.unless(count <= Line::MOST)?;
    Refusal::MissingOrLeftOver.unless(numbers.len() % 4 == 0)?;
    Refusal::MissingOrLeftOver.unless(is_fitting(origins.len(), more))?;
    Refusal::TooMany.unless(admission::fits_behind(Line::MOST, count, more))?;
    lines::judge_lines(numbers)
}

// The first fault of a withdrawal from a session of `count` lines: more lines than a session holds (4), an index behind
// them (15).
#[tactic(auto, unfolding(crate::specs::Withdrawals::withdrawal_fault))]
fn judge_withdrawal(count: usize, index: usize) -> Judged
    ensures { fault_of result ≡ withdrawal_fault count index }
{
    Refusal::TooMany.unless(count <= Line::MOST)?;
    Refusal::NoSuchLine.unless(index < count)
}

// The first fault of a change of a session of `count` lines before its batch: more lines than a session holds (4), an
// index that is not below them, or not above the one before (15).
#[tactic(auto, unfolding(crate::specs::Changes::change_fault))]
fn judge_change(count: usize, withdrawn: &[usize]) -> Judged
    ensures { fault_of result ≡ change_fault count withdrawn.now }
{
    Refusal::TooMany.unless(count <= Line::MOST)?;
    let mut low = 0usize;
    for next in withdrawn {
        Refusal::NoSuchLine.unless(low <= *next && *next < count)?;
        low = *next + 1;
    }
    Ok(())
}

// The rigid count once the lines at these indices are gone.
fn lower_by(withdrawn: &[usize], rigid: usize) -> usize
    ensures { result ≡ lowered_by withdrawn.now rigid }
{
    let below = withdrawn.iter().filter(|index| **index < rigid).count();
    rigid.saturating_sub(below)
}

// Whether an origin has this kind and place.
#[tactic(auto, unfolding(crate::specs::Changes::is_of))]
fn is_of(origin: Origin, kind: u32, place: u32) -> bool
    ensures { result ≡ is_of kind place origin }
{
    origin.kind == kind && origin.place == place
}

// The indices of the origins that have this kind and place, and how many there are.
// kept: no heap: a list that grows stands in an array, with its length beside.
fn find(origins: &[Origin], kind: u32, place: u32, found: &mut [usize]) -> usize
    requires { length origins.now ≤ length found.old }
    ensures within { result ≤ length origins.now }
    ensures found { take result found.new ≡ indices_from kind place 0 origins.now }
{
    let mut n = 0usize;
    for (i, origin) in origins.iter().enumerate() {
        if is_of(*origin, kind, place) {
            found[n] = i;
            n += 1;
        }
    }
    n
}

// Whether the point lies strictly on the line's left.
#[tactic(auto, unfolding(crate::specs::Meeting::is_met))]
fn is_met(point: Vec2, line: Line) -> bool
    ensures { result ≡ is_met point line }
{
    common::determinant(line.direction, point.sub(line.point)) > 0.0
}

// Where the line that comes to stand at `n` stood before those at several indices were taken out.
fn source_in(withdrawn: &[usize], n: usize) -> usize
    requires { n + length withdrawn.now ≤ most_lines }
    ensures { (result ≡ source_in withdrawn.now n) × (result ≤ n + length withdrawn.now) }
{
    let mut from = n;
    for index in withdrawn {
        if from >= *index {
            from += 1;
        }
    }
    from
}

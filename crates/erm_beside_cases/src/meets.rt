//! Two sessions on threads that are inside a call of theirs at once.
ghost use Rattle.std.specs.Prelude.{◌≡◌, ◌<◌, ◌≤◌, [], false, IfOk, length, vec_capacity};
ghost use Rattle.std.specs.List.{All};
ghost use Rattle.erm_engine.specs.Opened.{AreNew, IsNew, IsOpened};
ghost use Rattle.erm_node.specs.Sound.{sound_law};
ghost use Rattle.erm_rule.specs.declared.view.Opening.{Opening as OpeningOf};
ghost use Rattle.erm_shared_session.specs.Stands.{Stands, own_of, seat_of};
ghost use Rattle.erm_threads.specs.Work.{IsJob};
ghost use Rattle.erm_worker_cases.specs.Lines.{AreOf};

use crate::meeting::{Meet, Meeting};
use crate::runs::{line, put};
use crossbeam_utils::Backoff;
use erm_beside::SharedSession;
use erm_engine::{Opened, end_all, open};
use erm_model::{OID_LIMIT, Phase, ROW_WORDS, Seat};
use erm_node::{SoundRows, sound, zero_rows_are_not_reached};
use erm_outside::Place;
use erm_report::Answer;
use erm_rule::{Opening, Table};
use erm_script::{Command, ScriptLine};
use erm_shared_session::TableSession;
use erm_start::first_object;
use erm_threads::{Job, room_for_answers, work_all};
use erm_worker::{Turns, Why};
use erm_worker_cases::are_of;
use std::alloc::{AllocError, Global};
use std::process::Abort;
use std::test::Fail;

// How often a worker waits before it stops.
const MOST_WAITS: u32 = 1_000_000;

// A worker that gives way while it waits, so often: the ring has room for what it does, and it asks for nothing of the disk.
#[derive(Drop)]
struct Patience {
    left: u32,
    backoff: Backoff,
}

impl Turns for Patience {
    // No patience is left.
    ghost told = { λ patience. patience.left ≡ 0 };

    // Memory suffices the other one.
    ghost starved = { λ patience. false };

    fn pass(&mut self, _place: Place) {}

    fn wait(&mut self, _why: Why) -> bool {
        if self.left == 0 {
            return false;
        }
        self.left -= 1;
        self.backoff.snooze();
        true
    }

    fn goes_on(&mut self) -> bool {
        self.left > 0
    }

    fn is_starved(&self) -> bool {
        false
    }

    fn tell_starved(&mut self) {}
}

// Two sessions over empty tables.
fn two(rt: &impl Abort, alloc: Global) -> Result<Opened<SoundRows>, AllocError>
    ensures { IfOk result (λ t. (o : OpeningOf) × IsOpened sound_law o 2 t) }
{
    zero_rows_are_not_reached();
    let rows = Vec::from_elem(alloc, [0; ROW_WORDS], OID_LIMIT as usize)?;
    assert!(rt; sound(&rows), "rows of zeros are sound");
    let opening = Opening {
        sessions: 0,
        tail: 13,
        run: 1,
        first: first_object(&rows),
        rows,
    };
    open(alloc, &opening, 2)
}

// What a session is asked, with room for the answers.
#[derive(Drop)]
struct Part {
    lines: Vec<ScriptLine>,
    answers: Vec<Answer>,
}

// The lines of a session, which puts in a table of its own: the first one in table 0. The second one then begins and commits once more.
fn lines_of(alloc: Global, seat: Seat) -> Result<Vec<ScriptLine>, AllocError>
    requires seat { 0 < seat }
{
    let mut lines = vec![in alloc;
        line(seat, Command::Begin),
        line(seat, put(seat - 1)),
        line(seat, Command::Commit),
    ]?;
    if seat == 2 {
        lines.push(line(seat, Command::Begin))?;
        lines.push(line(seat, Command::Commit))?;
    }
    Ok(lines)
}

// A session's lines, with room for their answers.
fn part_of(alloc: Global, seat: Seat) -> Result<Part, Fail>
    requires seat { 0 < seat }
    ensures lines { IfOk result (λ p. AreOf seat p.lines.items) }
    ensures none { IfOk result (λ p. p.answers.items ≡ []) }
    ensures room { IfOk result (λ p. length p.lines.items ≤ vec_capacity p.answers) }
{
    let lines = lines_of(alloc, seat)?;
    if !are_of(&lines, seat) {
        return Err(Fail::new("these are no lines of a session"));
    }
    let answers = room_for_answers(alloc, lines.as_slice())?;
    Ok(Part { lines, answers })
}

// The job of a session that meets the other one.
fn job<'a>(
    _table: &Table<SoundRows>,
    meeting: &'a Meeting,
    session: TableSession<SoundRows>,
    part: Part,
    _seat: Seat,
) -> Job<Meet<'a, TableSession<SoundRows>>, Patience>
    requires new { (o : OpeningOf) × IsNew sound_law _table.now o _seat session }
    requires lines { AreOf _seat part.lines.items }
    requires none { part.answers.items ≡ [] }
    requires room { length part.lines.items ≤ vec_capacity part.answers }
    ensures { IsJob (λ s. Stands sound_law _table.now s.session) (λ s. seat_of s.session) (λ s. own_of s.session) result }
{
    Job {
        session: Meet {
            session,
            meeting,
            met: false,
        },
        turns: Patience {
            left: MOST_WAITS,
            backoff: Backoff::new(),
        },
        lines: part.lines,
        answers: part.answers,
        closed: None,
        lacked: false,
    }
}

// The jobs of two sessions that meet, for which there is room.
fn put_jobs<'a>(
    table: &Table<SoundRows>,
    meeting: &'a Meeting,
    sessions: Vec<TableSession<SoundRows>>,
    first: Part,
    second: Part,
    jobs: &mut Vec<Job<Meet<'a, TableSession<SoundRows>>, Patience>>,
)
    requires new { (o : OpeningOf) × AreNew sound_law table.now o 2 sessions.items }
    requires first { AreOf 1 first.lines.items × (first.answers.items ≡ []) × (length first.lines.items ≤ vec_capacity first.answers) }
    requires second { AreOf 2 second.lines.items × (second.answers.items ≡ []) × (length second.lines.items ≤ vec_capacity second.answers) }
    requires none { jobs.old.items ≡ [] }
    requires room { 2 ≤ vec_capacity jobs.old }
    ensures { All (λ j. IsJob (λ s. Stands sound_law table.now s.session) (λ s. seat_of s.session) (λ s. own_of s.session) j) jobs.new.items }
{
    let mut left = sessions.into_iter();
    let Some(one) = left.next() else {
        unreachable!();
    };
    let Some(other) = left.next() else {
        unreachable!();
    };
    left.destroy_empty();
    jobs.push_reserved(job(table, meeting, one, first, 1));
    jobs.push_reserved(job(table, meeting, other, second, 2));
}

// Each session has committed. It is idle, and given up.
fn give_up<'a>(
    rt: &impl Abort,
    table: &Table<SoundRows>,
    mut jobs: Vec<Job<Meet<'a, TableSession<SoundRows>>, Patience>>,
)
    requires stand { All (λ j. Stands sound_law table.now j.session.session) jobs.items }
{
    while let Some(job) = jobs.pop() {
        let answer = job.answers.as_slice().last();
        assert!(rt; matches!(answer, Some(Answer::Committed { .. })));
        let Meet {
            session,
            meeting: _,
            met: _,
        } = job.session;
        let Phase::Idle = session.phase(table) else {
            panic!(rt; "a session that committed isn't idle");
        };
        session.into_pass();
    }
    jobs.destroy_empty();
}

// Each session enters its seal before the other one's is over: a lock round a call would keep it out.
#[test]
fn two_sessions_seal_at_once(rt: HostRuntime) -> Result<(), Fail> {
    let alloc = rt.alloc();
    let first = part_of(alloc, 1)?;
    let second = part_of(alloc, 2)?;
    let Opened {
        table,
        sessions,
        idle: _,
        flush: _,
    } = two(&rt, alloc)?;
    let meeting = Meeting::new();
    let Ok(mut jobs) = Vec::with_capacity(alloc, 2) else {
        end_all(sessions);
        return Err(Fail::new("there is no room for jobs"));
    };
    put_jobs(&table, &meeting, sessions, first, second, &mut jobs);
    work_all(&rt, alloc, &table, jobs.as_mut_slice());
    give_up(&rt, &table, jobs);
    assert!(rt; !meeting.has_expired(), "both were entered");
    Ok(())
}

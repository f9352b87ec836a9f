//! Two sessions of one world, whose workers work in turn.
ghost use Rattle.std.specs.Prelude.{◌≡◌, false, IfOk};
ghost use Rattle.erm_lines.specs.Executions.{IsOpened};
ghost use Rattle.erm_plain.specs.Stands.{plain_view};

use crate::{are_of, close, work};
use erm_model::{OID_LIMIT, ROW_WORDS, Reply, Seat, Value};
use erm_node::{SoundRows, sound};
use erm_outside::Place;
use erm_plain::Plain;
use erm_report::Answer;
use erm_script::{Command, ScriptLine};
use erm_start::open_world;
use erm_worker::{Turns, Why};
use erm_world::RowWorld;
use std::alloc::{AllocError, Global};
use std::process::Abort;
use std::test::Fail;

// A worker's patience: how often it waits before it is told to stop, and which waits these were.
#[derive(Drop)]
struct Patience {
    waits: u32,
    sessions: u32,
    disks: u32,
}

impl Turns for Patience {
    // No patience is left.
    ghost told = { λ patience. patience.waits ≡ 0 };

    // Memory suffices the other one.
    ghost starved = { λ patience. false };

    fn pass(&mut self, _place: Place) {}

    fn wait(&mut self, why: Why) -> bool {
        match why {
            Why::Session => self.sessions = self.sessions.wrapping_add(1),
            Why::Ring => {}
            Why::Disk => self.disks = self.disks.wrapping_add(1),
        }
        if self.waits == 0 {
            return false;
        }
        self.waits -= 1;
        true
    }

    fn goes_on(&mut self) -> bool {
        self.waits > 0
    }

    fn is_starved(&self) -> bool {
        false
    }

    fn tell_starved(&mut self) {}
}

// It waits so often.
fn with_patience(waits: u32) -> Patience {
    Patience {
        waits,
        sessions: 0,
        disks: 0,
    }
}

// A world of two sessions, in which every table is empty.
fn opened(rt: &impl Abort, alloc: Global) -> Result<Plain<SoundRows>, AllocError>
    ensures stands { IfOk result ⟦<Plain<SoundRows> as RowWorld>⟧.stands }
    ensures opened { IfOk result (λ p. IsOpened (plain_view p)) }
    ensures sessions { IfOk result (λ p. (plain_view p).opening.sessions ≡ 2) }
{
    let rows = Vec::from_elem(alloc, [0; ROW_WORDS], OID_LIMIT as usize)?;
    assert!(rt; sound(&rows), "rows of zeros are sound");
    open_world(alloc, &rows, 13, 1, 2)
}

// A line of a session.
fn line(session: Seat, command: Command) -> ScriptLine {
    ScriptLine {
        line: 1,
        session,
        command,
    }
}

// Puts a value of one byte for a key.
fn put(byte: u8) -> Command {
    Command::Put {
        table: 0,
        key: 10,
        value: Value::new(&[byte]).unwrap(),
    }
}

const GET: Command = Command::Get { table: 0, key: 10 };

// The second session reads what the first one has sealed, which isn't decided: it waits, is told to stop, and is left. Then the first is closed.
#[test]
fn a_read_waits_for_what_is_sealed(rt: HostRuntime) -> Result<(), Fail> {
    let alloc = rt.alloc();
    let world = opened(&rt, alloc)?;
    let first = vec![in alloc;
        line(1, Command::Begin),
        line(1, put(7)),
        line(1, Command::Seal),
    ]?;
    assert!(rt; are_of(&first, 1));
    let mut turns = with_patience(1);
    let (world, answers) = work(&rt, alloc, world, 1, &first, &mut turns)?;
    assert!(rt;
        matches!(
            answers.as_slice(),
            [
                Answer::Began(13),
                Answer::Replied(Reply::Done),
                Answer::Sealed(13)
            ]
        )
    );
    let second = vec![in alloc;
        line(2, Command::Begin),
        line(2, GET),
        line(2, Command::Commit),
    ]?;
    assert!(rt; are_of(&second, 2));
    let (world, answers) = work(&rt, alloc, world, 2, &second, &mut turns)?;
    assert!(rt; matches!(answers.as_slice(), [Answer::Began(_)]));
    assert!(rt; turns.sessions == 2, "it was tried twice");
    assert!(rt;
        matches!(world.phase(2), erm_model::Phase::Idle),
        "it was aborted"
    );
    let (_world, closed) = close(&rt, world, 1, &mut turns);
    assert!(rt; matches!(closed, Some(Answer::Committed { stamp: 13, .. })));
    Ok(())
}

// A commit that isn't flushed isn't on the disk: the worker waits, and is told to stop. Behind its patience no line is run.
#[test]
fn a_worker_waits_for_the_disk(rt: HostRuntime) -> Result<(), Fail> {
    let alloc = rt.alloc();
    let world = opened(&rt, alloc)?;
    let first = vec![in alloc;
        line(1, Command::Durable),
        line(1, Command::Begin),
        line(1, put(7)),
        line(1, Command::Begin),
        line(1, Command::Commit),
        line(1, Command::Durable),
        line(1, Command::Begin),
    ]?;
    assert!(rt; are_of(&first, 1));
    let mut turns = with_patience(2);
    let (world, answers) = work(&rt, alloc, world, 1, &first, &mut turns)?;
    assert!(rt;
        matches!(
            answers.as_slice(),
            [
                Answer::NoReceipt,
                Answer::Began(13),
                Answer::Replied(Reply::Done),
                Answer::NotIdle,
                Answer::Committed { stamp: 13, .. },
            ]
        )
    );
    assert!(rt; turns.disks == 3, "it was tried three times");
    let second = vec![in alloc; line(2, Command::Begin)]?;
    assert!(rt; are_of(&second, 2));
    let (_world, answers) = work(&rt, alloc, world, 2, &second, &mut turns)?;
    assert!(rt; answers.is_empty(), "it was told to stop before");
    Ok(())
}

// A snapshot waits for a transaction that had begun before it. Its worker is told to stop, and leaves it as it stands; then it is closed.
#[test]
fn a_snapshot_waits_for_what_began_before(rt: HostRuntime) -> Result<(), Fail> {
    let alloc = rt.alloc();
    let world = opened(&rt, alloc)?;
    let first = vec![in alloc; line(1, Command::Begin)]?;
    assert!(rt; are_of(&first, 1));
    let mut turns = with_patience(1);
    let (world, answers) = work(&rt, alloc, world, 1, &first, &mut turns)?;
    assert!(rt; matches!(answers.as_slice(), [Answer::Began(13)]));
    let second = vec![in alloc;
        line(2, Command::Begin),
        line(2, put(7)),
        line(2, Command::Commit),
        line(2, Command::Safe),
        line(2, GET),
    ]?;
    assert!(rt; are_of(&second, 2));
    let (world, answers) = work(&rt, alloc, world, 2, &second, &mut turns)?;
    assert!(rt;
        matches!(
            answers.as_slice(),
            [
                Answer::Began(13),
                Answer::Replied(Reply::Done),
                Answer::Committed { stamp: 13, .. },
            ]
        )
    );
    assert!(rt; turns.sessions == 2, "it was asked twice");
    assert!(rt;
        matches!(world.phase(2), erm_model::Phase::Pending),
        "it stands as it was"
    );
    let (world, closed) = close(&rt, world, 2, &mut turns);
    assert!(rt; matches!(closed, Some(Answer::Aborted)));
    assert!(rt; matches!(world.phase(2), erm_model::Phase::Idle));
    Ok(())
}

// A safe snapshot reads what was committed, writes nothing, and ends.
#[test]
fn a_safe_snapshot_reads_and_ends(rt: HostRuntime) -> Result<(), Fail> {
    let alloc = rt.alloc();
    let world = opened(&rt, alloc)?;
    let first = vec![in alloc;
        line(1, Command::Begin),
        line(1, put(7)),
        line(1, Command::Commit),
    ]?;
    assert!(rt; are_of(&first, 1));
    let mut turns = with_patience(1);
    let (world, answers) = work(&rt, alloc, world, 1, &first, &mut turns)?;
    assert!(rt; answers.len() == 3);
    let second = vec![in alloc;
        line(2, Command::Safe),
        line(2, GET),
        line(2, put(7)),
        line(2, Command::Safe),
        line(2, Command::Commit),
        line(2, Command::Abort),
    ]?;
    assert!(rt; are_of(&second, 2));
    let (_world, answers) = work(&rt, alloc, world, 2, &second, &mut turns)?;
    assert!(rt;
        matches!(
            answers.as_slice(),
            [
                Answer::Safe(_),
                Answer::Replied(Reply::Value(Some(_))),
                Answer::ReadOnly,
                Answer::NotIdle,
                Answer::Ended,
                Answer::NoTransaction,
            ]
        )
    );
    Ok(())
}

// Whether a worker is told that it went back over a put, by which the key has the value that it had.
fn went_back(answers: &[Answer]) -> bool {
    matches!(
        answers,
        [
            Answer::Began(13),
            Answer::Replied(Reply::Done),
            Answer::Saved { held: 1 },
            Answer::Replied(Reply::Done),
            Answer::Back { n: 1 },
            Answer::NoSave { held: 1 },
            Answer::Replied(Reply::Value(Some(value))),
            Answer::Committed { stamp: 13, .. },
        ] if value.as_slice() == [7].as_slice()
    )
}

// A worker goes back over a put, and commits, and waits for no other session.
#[test]
fn a_worker_goes_back(rt: HostRuntime) -> Result<(), Fail> {
    let alloc = rt.alloc();
    let world = opened(&rt, alloc)?;
    let lines = vec![in alloc;
        line(1, Command::Begin),
        line(1, put(7)),
        line(1, Command::Save),
        line(1, put(8)),
        line(1, Command::Back { n: 1 }),
        line(1, Command::Back { n: 2 }),
        line(1, GET),
        line(1, Command::Commit),
    ]?;
    assert!(rt; are_of(&lines, 1));
    let mut turns = with_patience(1);
    let (_world, answers) = work(&rt, alloc, world, 1, &lines, &mut turns)?;
    assert!(rt; went_back(&answers));
    assert!(rt; turns.sessions == 0, "it waited for none");
    Ok(())
}

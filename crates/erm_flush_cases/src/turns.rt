//! Flush turns of two transactions, the first of whose blocks crosses a segment's end.
ghost use Rattle.std.specs.Prelude.{[], ◌<◌, ◌≡◌, false, IfOk};
ghost use Rattle.erm_model.specs.RowTransaction.{any_law};
ghost use Rattle.erm_plain.specs.Stands.{IsWorld, plain_view};
ghost use Rattle.erm_world.specs.Laws.{IsLawfulWork};
ghost use Rattle.erm_world.specs.World.{Work};

use erm_block::read_block;
use erm_bytes::read_words;
use erm_flush::{FlushStop, Flusher};
use erm_model::{AnyRows, OID_LIMIT, Oid, Phase, ROW_WORDS, Seat, Stamp};
use erm_outside::{Disk, Failed, File};
use erm_outside_mem::{MemDisk, Pick};
use erm_plain::Plain;
use erm_world::RowWorld;
use std::alloc::{AllocError, Global};
use std::test::Fail;

// Where the log goes on: two words before a segment's end. A commit of one row with one word that isn't 0 takes seven.
const TAIL: Stamp = 65_534;

const MIDDLE: Stamp = 65_541;

const END: Stamp = 65_548;

// What two turns answer.
type Turns = [Result<Stamp, FlushStop>; 2];

const FAULT: Turns = [Err(FlushStop::DiskFault), Err(FlushStop::Failed)];

// A case.
struct Case {
    // Whether the second transaction is decided too.
    both: bool,
    // The call of the disk that fails, of two writes and then two syncs.
    call: u64,
    turns: Turns,
    // Whether the first block stands on a disk that kept what was waited for, and on one that kept all.
    stands: [bool; 2],
}

const CASES: [Case; 6] = [
    Case {
        both: true,
        call: 1,
        turns: FAULT,
        stands: [false, false],
    },
    Case {
        both: true,
        call: 2,
        turns: FAULT,
        stands: [false, false],
    },
    Case {
        both: true,
        call: 3,
        turns: FAULT,
        stands: [false, true],
    },
    Case {
        both: true,
        call: 4,
        turns: FAULT,
        stands: [false, true],
    },
    Case {
        both: true,
        call: 5,
        turns: [Ok(END), Err(FlushStop::Empty { at: END })],
        stands: [true, true],
    },
    Case {
        both: false,
        call: 5,
        turns: [Ok(MIDDLE), Err(FlushStop::Unfilled { at: MIDDLE })],
        stands: [true, true],
    },
];

// Two sessions on rows of zeros, without a law of rows.
fn opened(alloc: Global) -> Result<Plain<AnyRows>, AllocError>
    ensures world { IfOk result (IsWorld any_law) }
    ensures sessions { IfOk result (λ p. (plain_view p).opening.sessions ≡ 2) }
{
    let rows = Vec::from_elem(alloc, [0; ROW_WORDS], OID_LIMIT as usize)?;
    Plain::open(alloc, &rows, TAIL, 1, 16, 2)
}

// Begins, where the session is idle.
fn begin<W: RowWorld>(world: &mut W, seat: Seat) -> bool
    requires stands { W.stands world.old }
    requires sessions { (W.view world.old).opening.sessions ≡ 2 }
    ensures stands { W.stands world.new }
    ensures sessions { (W.view world.new).opening.sessions ≡ 2 }
{
    if seat == 0 || seat > 2 {
        return false;
    }
    match world.phase(seat) {
        Phase::Idle => world.begin(seat).is_ok(),
        _ => false,
    }
}

// Sets a row, where the session is active.
fn set<W: RowWorld>(world: &mut W, seat: Seat, oid: Oid) -> bool
    requires stands { W.stands world.old }
    requires sessions { (W.view world.old).opening.sessions ≡ 2 }
    requires object { oid < OID_LIMIT }
    ensures stands { W.stands world.new }
    ensures sessions { (W.view world.new).opening.sessions ≡ 2 }
{
    if seat == 0 || seat > 2 {
        return false;
    }
    let mut row = [0; ROW_WORDS];
    row[0] = 7;
    match world.phase(seat) {
        Phase::Active => world.write(seat, oid, &row).is_ok(),
        _ => false,
    }
}

// Seals, where the session is active.
fn seal<W: RowWorld>(world: &mut W, seat: Seat) -> Option<Stamp>
    requires stands { W.stands world.old }
    requires sessions { (W.view world.old).opening.sessions ≡ 2 }
    requires lawful { (work : Work) → IsLawfulWork W.law work }
    ensures stands { W.stands world.new }
    ensures sessions { (W.view world.new).opening.sessions ≡ 2 }
{
    if seat == 0 || seat > 2 {
        return None;
    }
    match world.phase(seat) {
        Phase::Active => Some(world.seal(seat)),
        _ => None,
    }
}

// Decides, where the session is sealed.
fn settle<W: RowWorld>(world: &mut W, seat: Seat) -> bool
    requires stands { W.stands world.old }
    requires sessions { (W.view world.old).opening.sessions ≡ 2 }
    ensures stands { W.stands world.new }
    ensures sessions { (W.view world.new).opening.sessions ≡ 2 }
{
    if seat == 0 || seat > 2 {
        return false;
    }
    match world.phase(seat) {
        Phase::Sealed => world.settle(seat).is_ok(),
        _ => false,
    }
}

// A world with two sealed transactions, of which the first is decided, and the second where it is to be.
fn sealed(alloc: Global, both: bool) -> Result<Plain<AnyRows>, AllocError>
    ensures { IfOk result (IsWorld any_law) }
{
    let mut world = opened(alloc)?;
    let _ = begin(&mut world, 1);
    let _ = set(&mut world, 1, 16);
    let _ = seal(&mut world, 1);
    let _ = begin(&mut world, 2);
    let _ = set(&mut world, 2, 17);
    let _ = seal(&mut world, 2);
    let _ = settle(&mut world, 1);
    if both {
        let _ = settle(&mut world, 2);
    }
    Ok(world)
}

// What two turns answer.
fn two_turns(flusher: &mut Flusher, disk: &mut MemDisk, world: &mut Plain<AnyRows>) -> Turns
    requires fine { flusher.old ≡ false }
    requires empty { disk.old.steps ≡ [] }
    requires world { IsWorld any_law world.old }
{
    let first = flusher.flush_turn(disk, world);
    [first, flusher.flush_turn(disk, world)]
}

// What turns until one stops answer.
fn all_turns(
    flusher: &mut Flusher,
    disk: &mut MemDisk,
    world: &mut Plain<AnyRows>,
) -> [FlushStop; 2]
    requires fine { flusher.old ≡ false }
    requires empty { disk.old.steps ≡ [] }
    requires world { IsWorld any_law world.old }
{
    let first = flusher.flush_all(disk, world);
    [first, flusher.flush_all(disk, world)]
}

// Whether the first block stands on a disk.
fn has_first(disk: &mut MemDisk) -> Result<bool, Failed> {
    let mut front = [0; 16];
    let mut back = [0; 40];
    let _ = disk.read(File::Segment(0), 8 * TAIL, &mut front)?;
    let _ = disk.read(File::Segment(1), 0, &mut back)?;
    let mut first = [0; 2];
    let mut rest = [0; 5];
    read_words(&front, &mut first);
    read_words(&back, &mut rest);
    let words = [
        first[0], first[1], rest[0], rest[1], rest[2], rest[3], rest[4],
    ];
    Ok(read_block(&words, TAIL, 1).is_some())
}

// Whether the first block stands after a crash, as a case says.
fn is_left_so(disk: &MemDisk, case: &Case) -> Result<bool, AllocError> {
    let waited = has_first(&mut disk.image(Pick::Nothing)?);
    let all = has_first(&mut disk.image(Pick::All)?);
    Ok(waited == Ok(case.stands[0]) && all == Ok(case.stands[1]))
}

// A disk to which nothing was done, of which a call fails.
fn failing(alloc: Global, call: u64) -> Result<MemDisk, AllocError>
    ensures { IfOk result (λ disk. disk.steps ≡ []) }
{
    Ok(MemDisk::new(alloc).failing([call].to_vec(alloc)?))
}

// Whether two turns answer as a case says, and leave such a disk.
fn writes_so(alloc: Global, case: &Case) -> Result<bool, AllocError> {
    let mut world = sealed(alloc, case.both)?;
    let mut disk = failing(alloc, case.call)?;
    let mut flusher = Flusher::new(alloc)?;
    let turns = two_turns(&mut flusher, &mut disk, &mut world);
    Ok(turns == case.turns && is_left_so(&disk, case)?)
}

#[test]
fn turns_write_blocks(rt: HostRuntime) -> Result<(), Fail> {
    for (place, case) in CASES.iter().enumerate() {
        assert!(rt; writes_so(rt.alloc(), case)?, "case {place}");
    }
    Ok(())
}

// Whether turns until one stops end so where two turns answer this.
fn are_stops(stops: [FlushStop; 2], turns: &Turns) -> bool {
    match turns {
        [Ok(_), Err(stop)] => stops == [*stop, *stop],
        [Err(first), Err(second)] => stops == [*first, *second],
        _ => false,
    }
}

fn stops_so(alloc: Global, case: &Case) -> Result<bool, AllocError> {
    let mut world = sealed(alloc, case.both)?;
    let mut disk = failing(alloc, case.call)?;
    let mut flusher = Flusher::new(alloc)?;
    let stops = all_turns(&mut flusher, &mut disk, &mut world);
    Ok(are_stops(stops, &case.turns))
}

#[test]
fn turns_go_on_until_one_stops(rt: HostRuntime) -> Result<(), Fail> {
    for (place, case) in CASES.iter().enumerate() {
        assert!(rt; stops_so(rt.alloc(), case)?, "case {place}");
    }
    Ok(())
}

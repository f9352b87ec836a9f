//! A bank on a disk in memory: what its tellers tell, and what is found on the disk behind them, whatever crash there was.
use erm_bank::{Errand, Teller, Told, run_bank};
use erm_client_beside::ProgramsRan;
use erm_client_disk::{ProgramsOnDisk, ProgramsStop};
use erm_model::SESSIONS;
use erm_outside_mem::{MemDisk, OpenGate, Pick, Silent};
use erm_tellers::{Holder, Outcome, Side, Task};
use std::alloc::{AllocError, Global};
use std::sync::Wait;
use std::test::Fail;
use std::thread::Threads;

// How often a teller tries what others are in the way of.
const TRIES: u32 = 5;

// What the customers hold in all.
const HUNDRED: u128 = 100;

const AUDIT: Errand = Errand::Audit { low: 7, high: 9 };

const SHOWN: Told = Told::Total {
    low: 7,
    high: 9,
    total: HUNDRED,
};

// One customer has all at first.
const DEPOSIT: Errand = Errand::Serve(Task::Deposit {
    holder: Holder {
        customer: 7,
        side: Side::Current,
    },
    amount: 100,
});

// More than the customer's two accounts cover.
const WITHDRAWAL: Errand = Errand::Serve(Task::Withdraw {
    holder: Holder {
        customer: 8,
        side: Side::Current,
    },
    amount: 101,
});

const DONE: Told = Told::Served(Outcome::Done);

const SHORT: Told = Told::Served(Outcome::Short);

// The calls of a disk behind one of which it fails: some are in the opening of its log, others at turns of the desk.
const FIRST_STOP: u64 = 8;

const LAST_STOP: u64 = 48;

// A transfer from the current account of one customer to the savings of another.
fn transfer(payer: u64, payee: u64, amount: u64) -> Errand {
    Errand::Serve(Task::Transfer {
        payer: Holder {
            customer: payer,
            side: Side::Current,
        },
        payee: Holder {
            customer: payee,
            side: Side::Savings,
        },
        amount,
    })
}

// A teller who is asked for this.
fn teller(alloc: Global, errands: &[Errand]) -> Result<Teller, AllocError> {
    Teller::new(alloc, Vec::from_slice(alloc, errands)?, TRIES)
}

// Tellers whose transfers go round among three customers, and who audit between them.
fn three(alloc: Global) -> Result<Vec<Teller>, Fail> {
    let round = [
        transfer(7, 8, 40),
        AUDIT,
        transfer(8, 9, 30),
        AUDIT,
        WITHDRAWAL,
        transfer(9, 7, 20),
        AUDIT,
    ];
    let first = teller(alloc, &round)?;
    let second = teller(alloc, &round)?;
    let third = teller(alloc, &round)?;
    Ok(vec![in alloc; first, second, third]?)
}

// A disk after a crash.
fn left(disk: &Silent<MemDisk>, pick: Pick) -> Result<Silent<MemDisk>, AllocError> {
    let disk = disk.disk.image(pick)?;
    Ok(Silent { disk })
}

// The tellers run on a disk: it comes back, and what is known of them, or nothing where its log wasn't opened.
fn ran<R: Threads + Wait + Sync>(
    rt: &R,
    alloc: Global,
    disk: Silent<MemDisk>,
    tellers: Vec<Teller>,
) -> Result<(Silent<MemDisk>, Option<ProgramsRan<Teller>>), Fail> {
    if tellers.len() > SESSIONS as usize {
        return Err(Fail::new("there are too many tellers"));
    }
    let ProgramsOnDisk { disk, ended } = run_bank(rt, alloc, disk, &OpenGate, tellers);
    match ended {
        Ok(ran) => Ok((disk, Some(ran))),
        Err(ProgramsStop::Unopened(..)) => Ok((disk, None)),
        Err(ProgramsStop::Memory(_)) => Err(Fail::new("memory ran out")),
    }
}

// What one teller tells who is alone on a disk, which comes back.
fn alone<R: Threads + Wait + Sync>(
    rt: &R,
    alloc: Global,
    disk: Silent<MemDisk>,
    errands: &[Errand],
) -> Result<(Silent<MemDisk>, Vec<Told>), Fail> {
    let teller = teller(alloc, errands)?;
    let (disk, ran) = ran(rt, alloc, disk, vec![in alloc; teller]?)?;
    let Some(mut ran) = ran else {
        return Err(Fail::new("the log isn't opened"));
    };
    match ran.programs.pop() {
        Some(run) => Ok((disk, run.program.told)),
        None => Err(Fail::new("the teller is gone")),
    }
}

// A disk on which the customers hold a hundred in all.
fn with_hundred<R: Threads + Wait + Sync>(rt: &R, alloc: Global) -> Result<Silent<MemDisk>, Fail> {
    let disk = Silent {
        disk: MemDisk::new(alloc),
    };
    let (disk, told) = alone(rt, alloc, disk, &[AUDIT, DEPOSIT])?;
    let empty = Told::Total {
        low: 7,
        high: 9,
        total: 0,
    };
    if told.as_slice() != [empty, DONE].as_slice() {
        return Err(Fail::new("the deposit isn't done"));
    }
    Ok(disk)
}

// Whether each total that the tellers tell is a hundred, and nothing was withdrawn.
fn tell_hundred(ran: &ProgramsRan<Teller>) -> bool {
    for run in ran.programs.as_slice() {
        for told in run.program.told.as_slice() {
            match *told {
                Told::Total { total, .. } if total != HUNDRED => return false,
                Told::NoTotal => return false,
                _ => {}
            }
        }
    }
    true
}

// Whether a transfer was done: nothing else that the three are asked for can be.
fn some_is_done(ran: &ProgramsRan<Teller>) -> bool {
    for run in ran.programs.as_slice() {
        for told in run.program.told.as_slice() {
            if *told == DONE {
                return true;
            }
        }
    }
    false
}

// Whether one alone finds what there was, on a disk after a crash, and can't withdraw more.
fn finds_hundred<R: Threads + Wait + Sync>(
    rt: &R,
    alloc: Global,
    disk: &Silent<MemDisk>,
    pick: Pick,
) -> Result<bool, Fail> {
    let (_, told) = alone(rt, alloc, left(disk, pick)?, &[AUDIT, WITHDRAWAL])?;
    Ok(told.as_slice() == [SHOWN, SHORT].as_slice())
}

// Three tellers run on such a disk that does no call behind so many: whether it failed them, or nothing where its log wasn't opened.
fn stopped<R: Threads + Wait + Sync>(
    rt: &R,
    alloc: Global,
    whole: &Silent<MemDisk>,
    stop: u64,
) -> Result<Option<bool>, Fail> {
    let disk = whole.disk.image(Pick::Nothing)?.stop_at(stop);
    let (disk, ran) = ran(rt, alloc, Silent { disk }, three(alloc)?)?;
    for pick in [Pick::Nothing, Pick::All] {
        if !finds_hundred(rt, alloc, &disk, pick)? {
            return Err(Fail::new("a crash changes the total"));
        }
    }
    match ran {
        Some(ran) if !tell_hundred(&ran) => Err(Fail::new("a teller tells another total")),
        Some(ran) => Ok(Some(ran.failed)),
        None => Ok(None),
    }
}

// One alone tells in its place what each errand came to.
#[test]
fn one_tells_each(rt: HostRuntime) -> Result<(), Fail> {
    let alloc = rt.alloc();
    let disk = Silent {
        disk: MemDisk::new(alloc),
    };
    let errands = [DEPOSIT, WITHDRAWAL, transfer(7, 8, 40), AUDIT];
    let (_, told) = alone(&rt, alloc, disk, &errands)?;
    assert!(rt; told.as_slice() == [DONE, SHORT, DONE, SHOWN].as_slice());
    Ok(())
}

// Tellers side by side leave the total, and so does a crash behind them that keeps only what was waited for.
#[test]
fn tellers_keep_the_total(rt: HostRuntime) -> Result<(), Fail> {
    let alloc = rt.alloc();
    let disk = with_hundred(&rt, alloc)?;
    let (disk, ran) = ran(&rt, alloc, left(&disk, Pick::Nothing)?, three(alloc)?)?;
    let Some(ran) = ran else {
        return Err(Fail::new("the log isn't opened"));
    };
    assert!(rt; !ran.failed && ran.programs.len() == 3 && tell_hundred(&ran));
    assert!(rt; some_is_done(&ran), "no transfer is done");
    assert!(rt;
        finds_hundred(&rt, alloc, &disk, Pick::Nothing)?,
        "behind a crash"
    );
    Ok(())
}

// Whatever call of the disk is the last that it does, and whatever of the later ones the crash keeps, the customers hold a hundred.
#[test]
fn crashes_keep_the_total(rt: HostRuntime) -> Result<(), Fail> {
    let alloc = rt.alloc();
    let whole = with_hundred(&rt, alloc)?;
    let (mut unopened, mut failed): (u32, u32) = (0, 0);
    for stop in FIRST_STOP..LAST_STOP {
        match stopped(&rt, alloc, &whole, stop)? {
            None => unopened = unopened.saturating_add(1),
            Some(true) => failed = failed.saturating_add(1),
            Some(false) => {}
        }
    }
    assert!(rt;
        unopened > 0 && failed > 0,
        "{unopened} unopened, {failed} failed"
    );
    Ok(())
}

//! The opening's state.
ghost use Rattle.std.specs.Prelude.{ℕ, ◌≡◌, ◌+◌, ◌<◌, ◌≤◌, IfOk, if◌then◌else◌, false, length, vec_len, slice_index};
ghost use Rattle.erm_machine.specs.declared.limits.TheConstants.{ANNOUNCERS, MOST_CELLS, OBJECT_LIMIT, SESSIONS, STOP};
ghost use Rattle.erm_machine.specs.declared.place.Place.TheVariants.{Idle, Vacant};
ghost use Rattle.erm_machine.specs.Core as core_specs;
ghost use Rattle.erm_machine.specs.Words as words_specs;
ghost use Rattle.erm_seat.specs.Parts.{part_of};
ghost use Rattle.erm_machine.specs.Sound.{Sound};
ghost use Rattle.erm_core.specs.Cores.{core_of, rows_of, AreFresh, AreNew, AreOpened};

use super::State;
use erm_kept::ObjectState;
use erm_kept::words::is_flusher;
use erm_machine::{ANNOUNCERS, OBJECT_LIMIT, Place, RING_WORDS};
use erm_model::{Row, Seat, Stamp};
use erm_seat::SeatState;
use std::alloc::{AllocError, Global};

// Whether a seat is taken at an opening with so many sessions.
fn is_taken(sessions: Seat, seat: Seat) -> bool
    ensures { result ≡ core_specs.is_taken sessions seat }
{
    (0 < seat && seat <= sessions) || is_flusher(seat)
}

// The objects as they are opened.
fn open_objects(alloc: Global, rows: &[Row]) -> Result<Vec<ObjectState>, AllocError>
    requires short { length rows.now ≤ OBJECT_LIMIT }
    ensures len { IfOk result (λ os. vec_len os ≡ length rows.now) }
    ensures items { IfOk result (λ os. AreOpened os.items rows.now) }
{
    let mut objects = Vec::with_capacity(alloc, rows.len())?;
    for (cell, row) in rows.iter().enumerate() {
        objects.push(ObjectState::opened(alloc, cell as u32, *row)?)?;
    }
    Ok(objects)
}

// So many zeros.
fn zeros(alloc: Global, count: usize) -> Result<Vec<u64>, AllocError>
    ensures len { IfOk result (λ words. vec_len words ≡ count) }
    ensures zero { IfOk result (λ words. (k : ℕ) → slice_index words.items k ≡ 0) }
{
    vec![in alloc; 0; count]
}

// A seat as it is opened.
fn open_seat(alloc: Global, sessions: Seat, seat: Seat, run: u64, tail: Stamp) -> SeatState
    ensures fresh { part_of result ≡ core_specs.fresh_part (if core_specs.is_taken sessions seat then Idle else Vacant) run tail }
    ensures flushes { result.flushes ≡ words_specs.is_flusher seat }
    ensures promised { result.promised ≡ false }
{
    let place = if is_taken(sessions, seat) {
        Place::Idle
    } else {
        Place::Vacant
    };
    SeatState::fresh(alloc, is_flusher(seat), place, run, tail)
}

// The seats as they are opened.
fn open_seats(
    alloc: Global,
    sessions: Seat,
    run: u64,
    tail: Stamp,
) -> Result<Vec<SeatState>, AllocError>
    ensures len { IfOk result (λ xs. vec_len xs ≡ ANNOUNCERS) }
    ensures items { IfOk result (λ xs. AreFresh xs.items sessions run tail) }
    ensures new { IfOk result (λ xs. AreNew xs.items) }
{
    let mut seats = Vec::with_capacity(alloc, ANNOUNCERS as usize)?;
    for seat in 0..ANNOUNCERS {
        seats.push(open_seat(alloc, sessions, seat, run, tail))?;
    }
    Ok(seats)
}

impl State {
    /// The state of an opening: so many sessions, a row for each object, the place where its log begins, its run, and the number
    /// of the first object that is made, at most the number of objects, and how many cells there are, one for each object at
    /// least. The opening's log begins at 1 or above, and at 2^60 + 4 at most.
    pub fn open(
        alloc: Global,
        sessions: Seat,
        rows: &[Row],
        tail: Stamp,
        run: u64,
        first: u64,
        cells: u32,
    ) -> Result<State, AllocError>
        requires sessions { sessions ≤ SESSIONS }
        requires rows { length rows.now ≡ OBJECT_LIMIT }
        requires positive { 0 < tail }
        requires low { tail ≤ STOP + 4 }
        requires first { first ≤ OBJECT_LIMIT }
        requires enough { OBJECT_LIMIT ≤ cells }
        requires few { cells ≤ MOST_CELLS }
        ensures core { IfOk result (λ s. core_of s ≡ core_specs.opening_state sessions (rows_of rows.now) tail run first cells) }
        ensures sound { IfOk result (λ s. Sound (core_of s)) }
    {
        erm_sound::openings_are_sound();
        let objects = open_objects(alloc, rows)?;
        let ring = zeros(alloc, RING_WORDS as usize)?;
        let seats = open_seats(alloc, sessions, run, tail)?;
        Ok(State {
            run,
            opening: tail,
            first,
            cell_limit: cells,
            tail,
            log: Vec::new(alloc),
            flushed: tail,
            objects_drawn: first,
            cells_drawn: OBJECT_LIMIT as u64,
            objects,
            ring,
            seats,
        })
    }
}

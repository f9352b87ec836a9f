//! Calls of two clients in turn, on one thread.
ghost use Rattle.erm_client.specs.Clients.{IsClient};
ghost use Rattle.erm_node.specs.Sound.{sound_law};
ghost use Rattle.erm_shared_session.specs.Stands.{Stands, own_of, seat_of};

use crate::clients::TableClient;
use erm_client::Refusal;
use erm_model::{Pairs, Seat, TABLES, Value};
use std::sync::Wait;

/// What a client is asked. Keys are of a table, and each value is a number of eight bytes.
#[derive(Clone, Copy)]
pub enum Ask {
    Begin,
    Get(u8, u64),
    Put(u8, u64, u64),
    Del(u8, u64),
    Next(u8, u64),
    Scan(u8),
    Commit,
    Abort,
    Durable,
    /// A safe snapshot.
    Safe,
    /// The end of one.
    End,
}

/// What it is answered.
#[derive(Clone, Copy, PartialEq, Eq)]
pub enum Told {
    Done,
    Value(Option<u64>),
    Pair(Option<(u64, u64)>),
    /// So many keys of the table have a value.
    Found(usize),
    /// Its exclusion window is closed.
    Excluded,
    /// The key's newest commit isn't below its begin.
    Newer,
    /// Another refusal.
    Refused(Refusal),
}

/// A call: whose, what is asked, and what is to be answered.
pub type Step = (Seat, Ask, Told);

/// The value that is this number.
pub fn value(number: u64) -> Value {
    Value::new(&number.to_be_bytes()).unwrap()
}

/// The number that a value is: 0 where it hasn't eight bytes.
pub fn number(value: &Value) -> u64 {
    match <[u8; 8]>::try_from(value.as_slice()) {
        Ok(bytes) => u64::from_be_bytes(bytes),
        Err(_) => 0,
    }
}

// What a refusal tells.
fn refused(why: Refusal) -> Told {
    match why {
        Refusal::Excluded { succ, pred } if succ <= pred => Told::Excluded,
        Refusal::Newer { .. } => Told::Newer,
        _ => Told::Refused(why),
    }
}

// What a call tells that gives nothing more.
fn done<X: Drop>(answer: Result<X, Refusal>) -> Told {
    match answer {
        Ok(_) => Told::Done,
        Err(why) => refused(why),
    }
}

// What the value of a key tells.
fn told_value(answer: Result<Option<Value>, Refusal>) -> Told {
    match answer {
        Ok(Some(value)) => Told::Value(Some(number(&value))),
        Ok(None) => Told::Value(None),
        Err(why) => refused(why),
    }
}

// What a key that was found tells.
fn told_pair(answer: Result<Option<(u64, Value)>, Refusal>) -> Told {
    match answer {
        Ok(Some(found)) => Told::Pair(Some((found.0, number(&found.1)))),
        Ok(None) => Told::Pair(None),
        Err(why) => refused(why),
    }
}

// What keys that were found tell.
fn told_found(answer: Result<Pairs, Refusal>) -> Told {
    match answer {
        Ok(found) => Told::Found(found.as_slice().len()),
        Err(why) => refused(why),
    }
}

// Reads of one of the tables.
fn read<'a, R: Wait>(rt: &R, client: &mut TableClient<'a>, ask: Ask) -> Option<Told>
    requires client { IsClient (λ x s. Stands sound_law x s) seat_of own_of client.old }
    ensures client { IsClient (λ x s. Stands sound_law x s) seat_of own_of client.new }
{
    match ask {
        Ask::Get(table, key) if table < TABLES => Some(told_value(client.get(rt, table, key))),
        Ask::Next(table, from) if table < TABLES => Some(told_pair(client.next(rt, table, from))),
        Ask::Scan(table) if table < TABLES => {
            Some(told_found(client.scan(rt, table, 0, u64::MAX)))
        }
        _ => None,
    }
}

// Writes to one of the tables.
fn write<'a, R: Wait>(rt: &R, client: &mut TableClient<'a>, ask: Ask) -> Option<Told>
    requires client { IsClient (λ x s. Stands sound_law x s) seat_of own_of client.old }
    ensures client { IsClient (λ x s. Stands sound_law x s) seat_of own_of client.new }
{
    match ask {
        Ask::Put(table, key, set) if table < TABLES => {
            Some(done(client.put(rt, table, key, value(set))))
        }
        Ask::Del(table, key) if table < TABLES => Some(done(client.del(rt, table, key))),
        _ => None,
    }
}

// Calls that begin and end transactions, and snapshots.
fn deal<'a, R: Wait>(rt: &R, client: &mut TableClient<'a>, ask: Ask) -> Option<Told>
    requires client { IsClient (λ x s. Stands sound_law x s) seat_of own_of client.old }
    ensures client { IsClient (λ x s. Stands sound_law x s) seat_of own_of client.new }
{
    match ask {
        Ask::Begin => Some(done(client.begin(rt))),
        Ask::Commit => Some(done(client.commit(rt))),
        Ask::Abort => Some(done(client.abort(rt))),
        Ask::Durable => Some(done(client.durable(rt))),
        Ask::Safe => Some(done(client.safe(rt))),
        Ask::End => Some(done(client.end(rt))),
        _ => None,
    }
}

/// What a client is answered. `None` where there is no such table.
pub fn call<'a, R: Wait>(rt: &R, client: &mut TableClient<'a>, ask: Ask) -> Option<Told>
    requires client { IsClient (λ x s. Stands sound_law x s) seat_of own_of client.old }
    ensures client { IsClient (λ x s. Stands sound_law x s) seat_of own_of client.new }
{
    match ask {
        Ask::Get(..) => read(rt, client, ask),
        Ask::Next(..) => read(rt, client, ask),
        Ask::Scan(_) => read(rt, client, ask),
        Ask::Put(..) => write(rt, client, ask),
        Ask::Del(..) => write(rt, client, ask),
        _ => deal(rt, client, ask),
    }
}

// What the client of a seat is answered.
fn call_of<'a, R: Wait>(
    rt: &R,
    first: &mut TableClient<'a>,
    second: &mut TableClient<'a>,
    seat: Seat,
    ask: Ask,
) -> Option<Told>
    requires first { IsClient (λ x s. Stands sound_law x s) seat_of own_of first.old }
    requires second { IsClient (λ x s. Stands sound_law x s) seat_of own_of second.old }
    ensures first { IsClient (λ x s. Stands sound_law x s) seat_of own_of first.new }
    ensures second { IsClient (λ x s. Stands sound_law x s) seat_of own_of second.new }
{
    if seat == 1 {
        return call(rt, first, ask);
    }
    call(rt, second, ask)
}

/// Makes the calls of two clients up to one that is answered otherwise: its place.
pub fn first_other<'a, R: Wait>(
    rt: &R,
    first: &mut TableClient<'a>,
    second: &mut TableClient<'a>,
    steps: &[Step],
) -> Option<usize>
    requires first { IsClient (λ x s. Stands sound_law x s) seat_of own_of first.old }
    requires second { IsClient (λ x s. Stands sound_law x s) seat_of own_of second.old }
    ensures first { IsClient (λ x s. Stands sound_law x s) seat_of own_of first.new }
    ensures second { IsClient (λ x s. Stands sound_law x s) seat_of own_of second.new }
{
    for place in 0..steps.len() {
        let (seat, ask, want) = steps[place];
        if call_of(rt, first, second, seat, ask) != Some(want) {
            return Some(place);
        }
    }
    None
}

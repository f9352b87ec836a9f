//! Lines of a script that touch each other, and transactions that are sought by them.
ghost use Rattle.std.specs.Prelude.{◌≡◌, ◌↔◌, ◌<◌, ℕ, false, IfNone, IfSome, IsTrue};
ghost use Rattle.erm_model.specs.Member.{◌∈◌};
ghost use Rattle.erm_explain.specs.Links.{Apart, IsFound, IsSought, Links, NoneIsFound, Touches, Writes, table_at, touch_of, writes_at};

use crate::told::{Ending, Told};
use crate::{is_writer, table_of};
use erm_model::{Seat, Stamp};
use erm_script::{Command, ScriptLine};

/// A line of another transaction, and an own line that it touches, by their places in the script.
#[derive(Clone, Copy, Debug, PartialEq, Eq)]
pub struct Link {
    /// The other transaction's line.
    pub other: usize,
    /// The own line.
    pub own: usize,
}

/// How two lines that name one table touch each other.
#[derive(Clone, Copy, Debug, PartialEq, Eq)]
pub enum Touch {
    /// The other one writes there.
    Overwrites,
    /// One of both writes there.
    Either,
}

/// A transaction that is over and is sought.
#[derive(Clone, Copy, Debug, PartialEq, Eq)]
pub enum Sought {
    /// A commit with this successor stamp, whose stamp is at or above a begin, and below a bound where there is one.
    After {
        begin: Stamp,
        bound: Option<Stamp>,
        succ: Stamp,
    },
    /// The commit of this stamp.
    Before {
        stamp: Stamp,
    },
    /// The commit of this stamp, at or above a begin, where it is of another session.
    Newer {
        session: Seat,
        begin: Stamp,
        stamp: Stamp,
    },
}

/// Finds a transaction that is sought, the last one first, and a line of it with an own one that touch each other; those of one key before
/// those of one table.
pub fn find_over(
    script: &[ScriptLine],
    sought: Sought,
    over: &[Told],
    owns: &[usize],
) -> Option<Link>
    ensures found { IfSome result (λ link. IsFound script.now sought over.now owns.now link) }
    ensures none { IfNone result (NoneIsFound script.now sought over.now owns.now) }
{
    let touch = touch_of(sought);
    let mut place = over.len();
    while place > 0 {
        place -= 1;
        let told = &over[place];
        if !is_sought(sought, told) {
            continue;
        }
        if let Some(link) = find_link(script, touch, &told.lines, owns) {
            return Some(link);
        }
    }
    None
}

// Whether a transaction that is over is sought.
fn is_sought(sought: Sought, told: &Told) -> bool
    ensures { IsTrue result ↔ IsSought sought told.now }
{
    let Ending::Commits {
        stamp: own,
        succ,
        ..
    } = told.ending
    else {
        return false;
    };
    match sought {
        Sought::After {
            begin,
            bound,
            succ: wanted,
        } => succ == wanted && begin <= own && is_below(own, bound),
        Sought::Before { stamp } => own == stamp,
        Sought::Newer {
            session,
            begin,
            stamp,
        } => told.session != session && begin <= stamp && own == stamp,
    }
}

/// Whether a stamp is below a bound, where there is one.
pub fn is_below(stamp: Stamp, bound: Option<Stamp>) -> bool
    ensures { IsTrue result ↔ IfSome bound (λ above. stamp < above) }
{
    match bound {
        Some(above) => stamp < above,
        None => true,
    }
}

// How a line of it and an own one touch each other.
fn touch_of(sought: Sought) -> Touch
    ensures { result ≡ touch_of sought }
{
    match sought {
        Sought::After { .. } | Sought::Newer { .. } => Touch::Overwrites,
        Sought::Before { .. } => Touch::Either,
    }
}

/// Finds a line of another transaction and an own one that touch each other: of one key, or else of one table.
pub fn find_link(
    script: &[ScriptLine],
    touch: Touch,
    others: &[usize],
    owns: &[usize],
) -> Option<Link>
    ensures found { IfSome result (λ link. Links script.now touch others.now owns.now link) }
    ensures none { IfNone result (Apart script.now touch others.now owns.now) }
{
    match find_among(script, touch, others, owns, true) {
        Some(link) => Some(link),
        None => find_among(script, touch, others, owns, false),
    }
}

// The same, of one key alone, or of one table; the last of the own lines first.
fn find_among(
    script: &[ScriptLine],
    touch: Touch,
    others: &[usize],
    owns: &[usize],
    same_key: bool,
) -> Option<Link>
    ensures found { IfSome result (λ link. Links script.now touch others.now owns.now link) }
    ensures none { same_key ≡ false → IfNone result (Apart script.now touch others.now owns.now) }
{
    let mut place = owns.len();
    while place > 0 {
        place -= 1;
        let own = owns[place];
        if let Some(other) = find_other(script, touch, others, own, same_key) {
            return Some(Link { other, own });
        }
    }
    None
}

// The same of one own line.
fn find_other(
    script: &[ScriptLine],
    touch: Touch,
    others: &[usize],
    own: usize,
    same_key: bool,
) -> Option<usize>
    ensures found { IfSome result (λ other. (other ∈ others.now) × Touches script.now touch other own) }
    ensures none { same_key ≡ false → IfNone result ((other : ℕ) → other ∈ others.now → Touches script.now touch other own → ⊥) }
{
    for other in others {
        if touches(script, touch, *other, own) && (!same_key || share_key(script, *other, own)) {
            return Some(*other);
        }
    }
    None
}

// Whether the lines at two places touch each other.
fn touches(script: &[ScriptLine], touch: Touch, other: usize, own: usize) -> bool
    ensures { IsTrue result ↔ Touches script.now touch other own }
{
    match (table_at(script, other), table_at(script, own)) {
        (Some(a), Some(b)) => a == b && writes(script, touch, other, own),
        _ => false,
    }
}

// Whether the one or the other writes, as is asked.
fn writes(script: &[ScriptLine], touch: Touch, other: usize, own: usize) -> bool
    ensures { IsTrue result ↔ Writes script.now touch other own }
{
    writes_at(script, other) || (touch == Touch::Either && writes_at(script, own))
}

// The table that the line at a place names.
fn table_at(script: &[ScriptLine], place: usize) -> Option<u8>
    ensures { result ≡ table_at script.now place }
{
    match script.get(place) {
        Some(line) => table_of(&line.command),
        None => None,
    }
}

// Whether the line at a place writes.
fn writes_at(script: &[ScriptLine], place: usize) -> bool
    ensures { result ≡ writes_at script.now place }
{
    match script.get(place) {
        Some(line) => is_writer(&line.command),
        None => false,
    }
}

// Whether the lines at two places share a key, as far as their words tell.
fn share_key(script: &[ScriptLine], one: usize, other: usize) -> bool {
    match (script.get(one), script.get(other)) {
        (Some(one), Some(other)) => share(keys_of(&one.command), keys_of(&other.command)),
        _ => false,
    }
}

fn share(one: (u64, u64), other: (u64, u64)) -> bool {
    one.0 <= other.1 && other.0 <= one.1
}

// The least and the greatest key that a command's words tell.
fn keys_of(command: &Command) -> (u64, u64) {
    match command {
        Command::Get { key, .. }
        | Command::Put { key, .. }
        | Command::Del { key, .. }
        | Command::Tidy { key, .. } => (*key, *key),
        Command::Scan { low, high, .. } => (*low, *high),
        Command::Next { from, .. } => (*from, u64::MAX),
        _ => (1, 0),
    }
}

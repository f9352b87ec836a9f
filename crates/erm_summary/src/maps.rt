//! The map after the transactions that committed. The snapshots among them only read. No map is copied for a savepoint: of a transaction those
//! lines are run that stay once it has gone back wherever it did.
ghost use Rattle.std.specs.Prelude.{◌≡◌, IfOk, OnOk, List};
ghost use Rattle.std.specs.FinMap.{from_entries};
ghost use Rattle.std.specs.List.{filter_map};
ghost use Rattle.std.specs.Option.{is_some, option_and_then, option_copied, option_to_list};
ghost use Rattle.erm_model.specs.Committed.{state_after};
ghost use Rattle.erm_model.specs.Database.{AscendByKey, entries_of};
ghost use Rattle.erm_model.specs.Run.{after_all, change_all, ops_of};
ghost use Rattle.erm_model.specs.Staying.{staying_from, stays_by};
ghost use Rattle.erm_good_report.specs.Transactions.{op_of, reply_in};
ghost use Rattle.erm_summary.specs.Told.{history_told, op_at, steps_at};
ghost use Rattle.erm_summary.specs.Summary.{at_places};

use crate::ToldCommit;
use erm_model::{Map, Pair, Staying};
use erm_report::Answer;
use erm_script::{Command, ScriptLine};
use std::alloc::{AllocError, Global};

/// The keys that have a value after the commits at these places, one after another from this map, ascending, with their values.
pub fn map_after(
    alloc: Global,
    opening: Map,
    script: &[ScriptLine],
    answers: &[Answer],
    commits: &[ToldCommit],
    order: &[usize],
) -> Result<Vec<Pair>, AllocError>
    ensures ascends { IfOk result (λ pairs. AscendByKey pairs.items) }
    ensures all { IfOk result (λ pairs. from_entries (entries_of pairs.items)
        ≡ state_after (at_places (history_told script.now answers.now commits.now) order.now) opening) }
{
    let mut map = opening;
    for place in order {
        if let Some(commit) = commits.get(*place) {
            write_lines(alloc, &mut map, script, answers, &commit.lines)?;
        }
    }
    map.pairs(alloc)
}

// The map after the operations of the lines at these places, which are a transaction's.
fn write_lines(
    alloc: Global,
    map: &mut Map,
    script: &[ScriptLine],
    answers: &[Answer],
    places: &[usize],
) -> Result<(), AllocError>
    ensures { OnOk result (map.new ≡ after_all (ops_of (steps_at script.now answers.now places.now)) map.old) }
{
    let mut kept = Staying::new(alloc);
    keep_lines(&mut kept, script, answers, places)?;
    write_kept(map, script, answers, kept.as_slice())
}

// What stays of the lines at these places, behind what stayed before.
fn keep_lines(
    kept: &mut Staying,
    script: &[ScriptLine],
    answers: &[Answer],
    places: &[usize],
) -> Result<(), AllocError>
    ensures { OnOk result (kept.new ≡ staying_from (op_at script.now answers.now) places.now kept.old) }
{
    for place in places {
        keep_line(kept, script, answers, *place)?;
    }
    Ok(())
}

// What stays with the line at this place, if it got a reply.
fn keep_line(
    kept: &mut Staying,
    script: &[ScriptLine],
    answers: &[Answer],
    place: usize,
) -> Result<(), AllocError>
    ensures { OnOk result (kept.new ≡ stays_by (op_at script.now answers.now place) place kept.old) }
{
    let Some(command) = done_at(script, answers, place) else {
        return Ok(());
    };
    match command {
        Command::Get { .. }
        | Command::Put { .. }
        | Command::Del { .. }
        | Command::Next { .. }
        | Command::Scan { .. } => kept.add(place),
        Command::Save => kept.save(),
        Command::Back { n } => {
            kept.back(*n);
            Ok(())
        }
        _ => Ok(()),
    }
}

// The map after the operations of the lines at these places, none of which goes back.
fn write_kept(
    map: &mut Map,
    script: &[ScriptLine],
    answers: &[Answer],
    places: &[usize],
) -> Result<(), AllocError>
    ensures { OnOk result (map.new ≡ change_all (filter_map (op_at script.now answers.now) places.now) map.old) }
{
    for place in places {
        write_line(map, script, answers, *place)?;
    }
    Ok(())
}

// The map after the operation of the line at this place, if it got a reply.
fn write_line(
    map: &mut Map,
    script: &[ScriptLine],
    answers: &[Answer],
    place: usize,
) -> Result<(), AllocError>
    ensures { OnOk result (map.new ≡ change_all (option_to_list (op_at script.now answers.now place)) map.old) }
{
    let Some(command) = done_at(script, answers, place) else {
        return Ok(());
    };
    match command {
        Command::Put { table, key, value } => map.insert(*table, *key, value.copied()),
        Command::Del { table, key } => {
            map.remove(*table, *key);
            Ok(())
        }
        _ => Ok(()),
    }
}

// The command of the line at this place, where it got a reply.
fn done_at<'a>(script: &'a [ScriptLine], answers: &[Answer], place: usize) -> Option<&'a Command>
    ensures { op_at script.now answers.now place ≡ option_and_then op_of (option_copied result) }
{
    let line = script.get(place)?;
    let answer = answers.get(place)?;
    if is_reply(answer) {
        Some(&line.command)
    } else {
        None
    }
}

// Whether an answer is the reply to an operation.
fn is_reply(answer: &Answer) -> bool
    ensures { result ≡ is_some (reply_in answer.now) }
{
    matches!(
        answer,
        Answer::Replied(_) | Answer::Saved { .. } | Answer::Back { .. }
    )
}

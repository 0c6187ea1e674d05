//! What a report tells of a script.

ghost use Rattle.std.specs.Prelude.{◌≡◌, ◌+◌, ◌++◌, ◌<◌, ◌≤◌, ◌↔◌, ◌⊎◌, ℕ, List, IfOk, IsTrue, length, option_to_list};
ghost use Rattle.std.specs.Prelude.{drop, slice_get, map, Some};
ghost use Rattle.command_log.specs.Spelling.{spelling};
ghost use Rattle.script_counts.specs.Counts.{read_off, crash_of, crashes, leader_of, changes, takeovers, value_of};
ghost use Rattle.script_counts.specs.Counts.{OffersAll};

use command_log::command_bytes;
use grant_machine::Command;
use seats::Answer;
use std::alloc::{AllocError, Global};
use world_events::Event;

/// How many events have an answer.
fn answered(events: &[Event], answers: &[Answer]) -> usize
    ensures events { result ≤ length events.now }
    ensures answers { result ≤ length answers.now }
    ensures all { (length events.now ≤ result) ⊎ (length answers.now ≤ result) }
{
    if events.len() <= answers.len() {
        events.len()
    } else {
        answers.len()
    }
}

/// 1 where a node crashed by the event as it was to, else 0.
fn crashed(event: &Event, answer: Answer) -> usize
    ensures crash { result ≡ length (crash_of event.now answer) }
    ensures one { result ≤ 1 }
{
    match (event, answer) {
        (Event::Crash(_), Answer::Finished) => 1,
        (Event::DeliverThenCrash(_), Answer::Finished) => 1,
        _ => 0,
    }
}

/// How many times a node crashed as it was to.
pub fn crashes(events: &[Event], answers: &[Answer]) -> usize
    ensures { result ≡ crashes events.now answers.now }
{
    let mut count = 0;
    for i in 0..answered(events, answers) {
        count += crashed(&events[i], answers[i]);
    }
    count
}

/// The node that took an offer.
fn leader_of(event: &Event, answer: Answer) -> Option<usize>
    ensures { option_to_list result ≡ leader_of event.now answer }
{
    match (event, answer) {
        (Event::Offer(k, _), Answer::Sent(_)) => Some(*k),
        _ => None,
    }
}

/// 1 where the next leader is another than the last one, else 0, and the last one then.
fn passed(last: Option<usize>, next: Option<usize>) -> (usize, Option<usize>)
    ensures changes { (ks : List ℕ) → changes (option_to_list last ++ (option_to_list next ++ ks)) ≡ result.0 + changes (option_to_list result.1 ++ ks) }
    ensures one { result.0 ≤ 1 }
{
    match (last, next) {
        (Some(was), Some(is)) => (if was == is { 0 } else { 1 }, next),
        (None, Some(_)) => (0, next),
        (_, None) => (0, last),
    }
}

/// How often another node took an offer than the one that took the last one.
pub fn takeovers(events: &[Event], answers: &[Answer]) -> usize
    ensures { result ≡ takeovers events.now answers.now }
{
    let mut count = 0;
    let mut last = None;
    for i in 0..answered(events, answers) {
        let (change, next) = passed(last, leader_of(&events[i], answers[i]));
        count += change;
        last = next;
    }
    count
}

/// The value of an offer that was taken.
fn value_of<'a>(event: &'a Event, answer: Answer) -> Option<&'a [u8]>
    ensures { map (λ value. value.now) (option_to_list result) ≡ value_of event.now answer }
{
    match (event, answer) {
        (Event::Offer(_, value), Answer::Sent(_)) => Some(value.as_slice()),
        _ => None,
    }
}

/// The value of the offer at this index that was taken, with what is read off behind it.
fn value_at<'a>(events: &'a [Event], answers: &[Answer], i: usize) -> Option<&'a [u8]>
    requires { (i < length events.now) × (i < length answers.now) }
    ensures { read_off value_of (drop i events.now) (drop i answers.now)
        ≡ map (λ value. value.now) (option_to_list result) ++ read_off value_of (drop (i + 1) events.now) (drop (i + 1) answers.now) }
{
    value_of(&events[i], answers[i])
}

/// Whether a list of commands ends before this index.
fn is_past(commands: &[Command], index: usize) -> bool
    ensures { IsTrue result ↔ (length commands.now ≤ index) }
{
    index >= commands.len()
}

/// Whether the value is the bytes of the command.
fn spells(alloc: Global, command: &Command, value: &[u8]) -> Result<bool, AllocError>
    ensures { IfOk result (λ is. IsTrue is ↔ (value.now ≡ spelling command.now)) }
{
    let bytes = command_bytes(alloc, command)?;
    Ok(value == bytes.as_slice())
}

/// Whether the value is the bytes of the command of this index.
fn is_of(
    alloc: Global,
    commands: &[Command],
    index: usize,
    value: &[u8],
) -> Result<bool, AllocError>
    ensures { IfOk result (λ is. IsTrue is ↔ ((command : Command) × (slice_get commands.now index ≡ Some command) × (value.now ≡ spelling command))) }
{
    match commands.get(index) {
        Some(command) => spells(alloc, command, value),
        None => Ok(false),
    }
}

/// Whether the values of the offers that were taken are the bytes of these commands, in order.
pub fn offers_all(
    alloc: Global,
    commands: &[Command],
    events: &[Event],
    answers: &[Answer],
) -> Result<bool, AllocError>
    ensures { IfOk result (λ all. IsTrue all ↔ OffersAll commands.now events.now answers.now) }
{
    let mut count = 0;
    for i in 0..answered(events, answers) {
        if let Some(value) = value_at(events, answers, i) {
            if !is_of(alloc, commands, count, value)? {
                return Ok(false);
            }
            count += 1;
        }
    }
    Ok(is_past(commands, count))
}

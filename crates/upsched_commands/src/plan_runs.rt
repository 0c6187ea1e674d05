//! Commands that read one plan, or one text.

use crate::opening::opened;
use std::alloc::Global;
use std::io::{Read, Write};
use upsched_check::{
    CaptureWords, CheckWords, StatsWords, capture, check, draw_plan, draw_text, is_plan_text,
    stats, stats_as_json, tell_plan,
};
use upsched_draw::{Asked, ScriptDrawing, draw_maps, draw_script, tell_maps};
use upsched_ends::{Fault, MapsWords, ScriptWords, Status, text_of};
use upsched_json::maps_as_json;
use upsched_maps::{maps, maps_named};
use upsched_script::script;
use upsched_words::{DrawWords, Subject};

/// Opens the plan and ends as `maps` does.
pub(crate) fn run_maps<'a, O: Write, E: Write>(
    rt: &HostRuntime,
    words: &MapsWords<'a>,
    output: &mut O,
    errors: &mut E,
) -> Result<Status, Fault<'a>> {
    let mut plan = opened(rt, words.plan)?;
    Ok(maps(rt.alloc(), &mut plan, words, output, errors))
}

/// Opens the plan and ends as `maps_named` does.
pub(crate) fn run_maps_named<'a, O: Write, E: Write>(
    rt: &HostRuntime,
    words: &MapsWords<'a>,
    output: &mut O,
    errors: &mut E,
) -> Result<Status, Fault<'a>> {
    let mut plan = opened(rt, words.plan)?;
    Ok(maps_named(rt.alloc(), &mut plan, words, output, errors))
}

/// Opens the plan and ends as `maps_as_json` does.
pub(crate) fn run_maps_as_json<'a, O: Write, E: Write>(
    rt: &HostRuntime,
    words: &MapsWords<'a>,
    output: &mut O,
    errors: &mut E,
) -> Result<Status, Fault<'a>> {
    let mut plan = opened(rt, words.plan)?;
    Ok(maps_as_json(rt.alloc(), &mut plan, words, output, errors))
}

/// Opens the text and ends as `check` does.
pub(crate) fn run_check<'a, O: Write, E: Write>(
    rt: &HostRuntime,
    words: &CheckWords<'a>,
    output: &mut O,
    errors: &mut E,
) -> Result<Status, Fault<'a>> {
    let mut text = opened(rt, words.path)?;
    Ok(check(rt.alloc(), &mut text, words, output, errors))
}

/// Opens the plan and ends as `capture` does.
pub(crate) fn run_capture<'a, O: Write, E: Write>(
    rt: &HostRuntime,
    words: &CaptureWords<'a>,
    output: &mut O,
    errors: &mut E,
) -> Result<Status, Fault<'a>> {
    let mut plan = opened(rt, words.plan)?;
    Ok(capture(rt.alloc(), &mut plan, words, output, errors))
}

/// Opens the plan and ends as `stats` does.
pub(crate) fn run_stats<'a, O: Write, E: Write>(
    rt: &HostRuntime,
    words: &StatsWords<'a>,
    output: &mut O,
    errors: &mut E,
) -> Result<Status, Fault<'a>> {
    let mut plan = opened(rt, words.plan)?;
    Ok(stats(rt.alloc(), &mut plan, words, output, errors))
}

/// Opens the plan and ends as `stats_as_json` does.
pub(crate) fn run_stats_as_json<'a, O: Write, E: Write>(
    rt: &HostRuntime,
    words: &StatsWords<'a>,
    output: &mut O,
    errors: &mut E,
) -> Result<Status, Fault<'a>> {
    let mut plan = opened(rt, words.plan)?;
    Ok(stats_as_json(rt.alloc(), &mut plan, words, output, errors))
}

/// Opens the plan, if the words name one, and ends as `script` does.
pub(crate) fn run_script_words<'a, O: Write, E: Write>(
    rt: &HostRuntime,
    words: &ScriptWords<'a>,
    output: &mut O,
    errors: &mut E,
) -> Result<Status, Fault<'a>> {
    let Some(path) = words.plan else {
        let mut no_plan: &[u8] = &[];
        return Ok(script(rt.alloc(), &mut no_plan, words, output, errors));
    };
    let mut plan = opened(rt, path)?;
    Ok(script(rt.alloc(), &mut plan, words, output, errors))
}

/// What is drawn of a script.
fn script_drawing<'a>(words: &DrawWords<'a>) -> ScriptDrawing<'a> {
    let (from, to) = words.events;
    ScriptDrawing {
        path: words.path,
        asked: Asked { from, to },
    }
}

/// Ends as `draw_script`, `draw_maps` or `tell_maps` does.
fn draw_what_is_asked<'a, F: Read, O: Write, E: Write>(
    alloc: Global,
    script: &mut F,
    words: &DrawWords<'a>,
    output: &mut O,
    errors: &mut E,
) -> Status {
    match words.subject {
        Subject::Maps => draw_maps(alloc, script, words.path, output, errors),
        Subject::MapsText => tell_maps(alloc, script, words.path, output, errors),
        _ => draw_script(alloc, script, &script_drawing(words), output, errors),
    }
}

/// Draws what is asked of a script, or tells that a plan is none.
fn draw_run<'a, F: Read, O: Write, E: Write>(
    alloc: Global,
    file: &mut F,
    words: &DrawWords<'a>,
    output: &mut O,
    errors: &mut E,
) -> Result<Status, Fault<'a>> {
    let text = text_of(alloc, file, words.path)?;
    if is_plan_text(alloc, text.as_str())? {
        return Ok(tell_plan(words.path, errors));
    }
    let mut script = text.as_bytes();
    Ok(draw_what_is_asked(alloc, &mut script, words, output, errors))
}

/// Opens the script or the plan and ends as `draw_run`, `draw_plan` or `draw_text` does.
pub(crate) fn run_draw<'a, O: Write, E: Write>(
    rt: &HostRuntime,
    words: &DrawWords<'a>,
    output: &mut O,
    errors: &mut E,
) -> Result<Status, Fault<'a>> {
    let mut file = opened(rt, words.path)?;
    match words.subject {
        Subject::Plan => Ok(draw_plan(rt.alloc(), &mut file, words.path, output, errors)),
        Subject::PlanText => Ok(draw_text(rt.alloc(), &mut file, words.path, output, errors)),
        _ => draw_run(rt.alloc(), &mut file, words, output, errors),
    }
}

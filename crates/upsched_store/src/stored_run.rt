//! `upsched run SCRIPT --store DIR`: the nodes keep their records in files.

ghost use Rattle.std.specs.Prelude.{◌≡◌, ◌≢◌};
ghost use Rattle.upsched_ends.specs.declared.status.Status.TheVariants.{Faulted, NotUnderstood};
ghost use Rattle.script_text.specs.StepScript.{NoSteps};

use crate::refused_run::{is_of_files, tell_refused};
use log::Log;
use node::Node;
use script_text::StepScript;
use sqlite::Files;
use sqlite_disk::Disk;
use std::io::{Read, Write};
use stored_nodes::{NodesUse, StoreFault, use_nodes_in, use_nodes_over};
use upsched_ends::{Fault, RunWords, Status, steps_of};
use upsched_json_run::print_script_as_json;
use upsched_run::{Telling, Trace, print_script};

/// What is told of nodes that don't start over files.
pub(crate) fn fault_of<'a>(fault: StoreFault) -> Fault<'a> {
    match fault {
        StoreFault::NotFresh => Fault::StoreNotFresh,
        StoreFault::Unusable => Fault::Store,
        StoreFault::OutOfMemory => Fault::Memory,
    }
}

/// How a run is printed.
#[derive(Clone, Copy)]
enum Form {
    Lines(Telling),
    /// As JSON, with a trace or without one.
    Json(bool),
}

/// What a script does to fresh nodes is printed, and then they are dropped.
#[derive(Drop)]
struct Printing<'a, R, O> {
    rt: &'a R,
    script: StepScript,
    form: Form,
    output: &'a mut O,
}

impl<R: Log + AllocGlobal, O: Write> NodesUse for Printing<'_, R, O> {
    type Answer = Result<(), Fault<'static>>;

    fn use_nodes<N: Node + Drop>(self, nodes: Vec<N>) -> Result<(), Fault<'static>> {
        let Printing {
            rt,
            script,
            form,
            output,
        } = self;
        let _world = match form {
            Form::Lines(telling) => print_script(rt, nodes, script, telling, output)?,
            Form::Json(is_traced) => {
                print_script_as_json(rt.alloc(), is_traced, nodes, script, output)?
            }
        };
        Ok(())
    }
}

/// What is told where nodes over files were to be used so.
fn printed<'a>(used: Result<Result<(), Fault<'static>>, StoreFault>) -> Result<(), Fault<'a>> {
    match used {
        Ok(printed) => printed,
        Err(fault) => Err(fault_of(fault)),
    }
}

/// What a script does to fresh nodes over a pair of files for each member is printed. The files are closed afterwards.
pub fn print_over<'a, R: Log + AllocGlobal, D: Disk + Drop, O: Write>(
    rt: &R,
    files: Vec<Files<D>>,
    script: StepScript,
    telling: Telling,
    output: &mut O,
) -> Result<(), Fault<'a>> {
    let form = Form::Lines(telling);
    let members = script.members;
    let printing = Printing {
        rt,
        script,
        form,
        output,
    };
    printed(use_nodes_over(rt.alloc(), members, files, printing))
}

fn print_in<'a, F: Read, O: Write>(
    rt: &HostRuntime,
    script: &mut F,
    path: &'a str,
    folder: &str,
    form: Form,
    output: &mut O,
) -> Result<(), Fault<'a>>
    ensures { NoSteps (F.remaining script.old) → output.new ≡ output.old }
{
    let script = steps_of(rt.alloc(), script, path)?;
    let members = script.members;
    let printing = Printing {
        rt,
        script,
        form,
        output,
    };
    printed(use_nodes_in(rt, folder, members, printing))
}

/// Tells a fault in one line. Where it is one of the files of this folder and more is to be logged, it is told of each of
/// these why.
fn told<E: Write>(
    rt: &HostRuntime,
    fault: &Fault<'_>,
    folder: &str,
    verbose: bool,
    errors: &mut E,
) -> Status
    ensures { result ≡ Faulted }
{
    let status = fault.told(errors);
    if verbose && is_of_files(fault) {
        tell_refused(rt, folder, errors);
    }
    status
}

/// Runs a script over fresh nodes with files in a folder, and prints as `run_script` does, or with a trace as
/// `trace_script` or `name_script`. A fault of the script or of the store is found before anything is printed, and is
/// told in one line; where more is logged, further lines say which files of the store it is, and why.
pub fn run_stored_script<F: Read, O: Write, E: Write>(
    rt: &HostRuntime,
    script: &mut F,
    words: &RunWords<'_>,
    folder: &str,
    trace: Trace,
    output: &mut O,
    errors: &mut E,
) -> Status
    ensures no_script { NoSteps (F.remaining script.old) → output.new ≡ output.old }
    ensures understood { result ≢ NotUnderstood }
{
    let verbose = words.verbose;
    let form = Form::Lines(Telling { verbose, trace });
    match print_in(rt, script, words.script, folder, form, output) {
        Ok(()) => Status::Done,
        Err(fault) => told(rt, &fault, folder, verbose, errors),
    }
}

/// The same as JSON, as `run_as_json` prints it.
pub fn run_stored_as_json<F: Read, O: Write, E: Write>(
    rt: &HostRuntime,
    script: &mut F,
    words: &RunWords<'_>,
    folder: &str,
    is_traced: bool,
    output: &mut O,
    errors: &mut E,
) -> Status
    ensures no_script { NoSteps (F.remaining script.old) → output.new ≡ output.old }
    ensures understood { result ≢ NotUnderstood }
{
    match print_in(
        rt,
        script,
        words.script,
        folder,
        Form::Json(is_traced),
        output,
    ) {
        Ok(()) => Status::Done,
        Err(fault) => fault.told(errors),
    }
}

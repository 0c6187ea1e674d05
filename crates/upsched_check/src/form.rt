//! What a text is to be.

ghost use Rattle.std.specs.Prelude.{◌≡◌, IfOk, map};
ghost use Rattle.toml.specs.View.{view};
ghost use Rattle.text_faults.specs.Faults.{TellsWhether};
ghost use Rattle.text_faults.specs.Unread.{key_there};
ghost use Rattle.upsched_check.specs.Reports.{IsForm, is_script, form_of, faults_of, unread_of};

use std::alloc::{AllocError, Global};
use text_faults::{Fault, Unread, plan_faults, plan_unread, script_faults, script_unread};
use toml::Value;

/// What a text is looked at as.
#[derive(Clone, Copy, Debug, PartialEq, Eq)]
pub enum Form {
    Plan,
    Script,
}

/// What `check` is told.
#[derive(Clone, Copy, Debug)]
pub struct CheckWords<'a> {
    /// The path of the text.
    pub path: &'a str,
    /// What the text is to be, if the words say so.
    pub form: Option<Form>,
}

impl Form {
    ghost use Rattle.std.specs.Prelude.{◌≡◌};
    ghost use Rattle.upsched_check.specs.Reports.{form_name, form_key};

    /// What the form is called.
    pub fn name(self) -> &'static str
        ensures { result.now ≡ form_name self }
    {
        match self {
            Form::Plan => "plan",
            Form::Script => "script",
        }
    }

    /// The key of its commands or events.
    pub fn key(self) -> &'static str
        ensures { result.now ≡ form_key self }
    {
        match self {
            Form::Plan => "command",
            Form::Script => "event",
        }
    }
}

pub(crate) fn is_script(whole: &Value) -> bool
    ensures { result ≡ is_script (view whole.now) }
{
    whole.get("members").is_some() || whole.get("modems").is_some() || whole.get("event").is_some()
}

/// What the text is to be: what is said, else a script where one of a script's keys is there, else a plan.
pub(crate) fn form_of(said: Option<Form>, whole: &Value) -> Form
    ensures { result ≡ form_of said (view whole.now) }
{
    match said {
        Some(form) => form,
        None if is_script(whole) => Form::Script,
        None => Form::Plan,
    }
}

pub(crate) fn faults_of(alloc: Global, form: Form, whole: &Value) -> Result<Vec<Fault>, AllocError>
    ensures exact { IfOk result (λ faults. faults.items ≡ faults_of form (view whole.now)) }
    ensures none { IfOk result (λ faults. TellsWhether (IsForm form) (view whole.now) faults.items) }
{
    match form {
        Form::Plan => plan_faults(alloc, whole),
        Form::Script => script_faults(alloc, whole),
    }
}

pub(crate) fn unread_of(alloc: Global, form: Form, whole: &Value) -> Result<Vec<Unread>, AllocError>
    ensures { IfOk result (λ unread. map key_there unread.items ≡ unread_of form (view whole.now)) }
{
    match form {
        Form::Plan => plan_unread(alloc, whole),
        Form::Script => script_unread(alloc, whole),
    }
}

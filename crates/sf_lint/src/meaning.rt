//! The meaning of a field to a cache or a server, in the lines that `sf` prints.
ghost use Rattle.std.specs.Prelude.{◌≡◌, ◌++◌, IfOk};
ghost use Rattle.sf_use.specs.Priority.{params_of_dict};
ghost use Rattle.sf_use.specs.Targeted.{policy};
ghost use Rattle.sf_tool.specs.ChoiceLines.{policy_lines};
ghost use Rattle.sf_tool.specs.PathLines.{path_lines};
ghost use Rattle.sf_tool.specs.PriorityLine.{priority_line};
ghost use Rattle.sf_lint.specs.Meanings.{IsMeaning, meaning_of, path_meaning};
ghost use Rattle.sf_lint.specs.Meanings.{priority_meaning, policy_meaning, ignored_line};
ghost use Rattle.sf_lint.specs.Meanings.{ignored_members as ignored_members_in};
ghost use Rattle.sf_lint.specs.Meanings.{priority_lines, targeted_lines};
ghost use Rattle.sf_lint.specs.Meanings.{is_ignored as is_ignored_in};
ghost use Rattle.std.specs.Option.{option_copied};

use crate::colours::Verdict;
use crate::ignored::ignored_members;
use crate::settings::{Settings, is_targeted};
use sf_field::{Consumer, UseFault};
use sf_tool::{put_path, put_policy, put_priority};
use sf_use::{CachePath, CacheStatus, Policy, Priority};
use sf_value::{Dict, Field, List, Member, OutOfMemory, Writing};
use std::alloc::Global;

/// Returns the lines of a path.
fn path_text(alloc: Global, path: &CachePath) -> Result<Vec<u8>, OutOfMemory>
    ensures { IfOk result (λ text. text.items ≡ path_lines path.now) }
{
    let mut out = Writing::new(Vec::new(alloc));
    match put_path(path, Ok(0), &mut out) {
        Ok(_) => Ok(out.into_inner()),
        Err(_) => Err(OutOfMemory),
    }
}

/// Returns the line of a priority.
fn priority_text(alloc: Global, priority: Priority) -> Result<Vec<u8>, OutOfMemory>
    ensures { IfOk result (λ text. text.items ≡ priority_line priority) }
{
    let mut out = Writing::new(Vec::new(alloc));
    match put_priority(priority, Ok(0), &mut out) {
        Ok(_) => Ok(out.into_inner()),
        Err(_) => Err(OutOfMemory),
    }
}

/// Returns the lines of a policy.
fn policy_text(alloc: Global, policy: &Policy) -> Result<Vec<u8>, OutOfMemory>
    ensures { IfOk result (λ text. text.items ≡ policy_lines policy.now) }
{
    let mut out = Writing::new(Vec::new(alloc));
    match put_policy(policy, Ok(0), &mut out) {
        Ok(_) => Ok(out.into_inner()),
        Err(_) => Err(OutOfMemory),
    }
}

/// Returns the line for a member that is ignored; nothing if it is not.
fn ignored_text(
    alloc: Global,
    settings: &Settings,
    key: &str,
    is_ignored: bool,
) -> Result<Vec<u8>, OutOfMemory>
    ensures { IfOk result (λ text. text.items ≡ ignored_line settings.now key.now is_ignored) }
{
    if !is_ignored {
        return Ok(Vec::new(alloc));
    }
    let ignored = Verdict::Ignored.text(settings);
    let text = format!(in alloc; "{ignored} {key}\n")?;
    Ok(text.into_bytes())
}

/// Returns whether a member is present but ignored.
fn is_ignored<T: Copy>(member: Option<&Member>, said: Option<T>) -> bool
    ensures { result ≡ is_ignored_in (option_copied member.entry) said }
{
    member.is_some() && said.is_none()
}

/// Returns three texts as one.
pub(crate) fn concatenated(
    first: Vec<u8>,
    second: Vec<u8>,
    third: Vec<u8>,
) -> Result<Vec<u8>, OutOfMemory>
    ensures { IfOk result (λ text. text.items ≡ (first.items ++ second.items) ++ third.items) }
{
    let mut text = first;
    text.extend_from_slice(second.as_slice())?;
    text.extend_from_slice(third.as_slice())?;
    Ok(text)
}

/// Returns the lines for the ignored and the invalid parameters of a Cache-Status field, and its
/// path.
fn path_texts(
    alloc: Global,
    settings: &Settings,
    list: &List,
    path: &CachePath,
) -> Result<Vec<u8>, OutOfMemory>
    ensures { IfOk result (λ text. text.items
        ≡ ignored_members_in settings.now 0 list.now.members ++ path_lines path.now) }
{
    let mut text = ignored_members(alloc, settings, list.members.as_slice())?;
    let lines = path_text(alloc, path)?;
    text.extend_from_slice(lines.as_slice())?;
    Ok(text)
}

/// Returns the lines for the ignored members of a Priority field, and its priority.
fn priority_texts(alloc: Global, settings: &Settings, dict: &Dict) -> Result<Vec<u8>, OutOfMemory>
    ensures { IfOk result (λ text. text.items
        ≡ priority_lines settings.now dict.now.members (params_of_dict dict.now)) }
{
    let asked = Priority::from_dict(dict);
    let urgency = is_ignored(dict.get(b"u"), asked.urgency);
    let urgency = ignored_text(alloc, settings, "u", urgency)?;
    let flag = is_ignored(dict.get(b"i"), asked.incremental);
    let flag = ignored_text(alloc, settings, "i", flag)?;
    concatenated(urgency, flag, priority_text(alloc, asked.with_defaults())?)
}

/// Returns the lines for the ignored members of a targeted field, and its policy.
fn targeted_texts(alloc: Global, settings: &Settings, dict: &Dict) -> Result<Vec<u8>, OutOfMemory>
    ensures { IfOk result (λ text. text.items
        ≡ targeted_lines settings.now dict.now.members (policy dict.now)) }
{
    let policy = Policy::from_dict(dict);
    let age = is_ignored(dict.get(b"max-age"), policy.max_age);
    let age = ignored_text(alloc, settings, "max-age", age)?;
    let shared = is_ignored(dict.get(b"s-maxage"), policy.s_maxage);
    let shared = ignored_text(alloc, settings, "s-maxage", shared)?;
    concatenated(age, shared, policy_text(alloc, &policy)?)
}

/// Returns the lines for the ignored and the invalid parameters of a Cache-Status field (RFC 9211),
/// and its path; nothing if the settings give the field another kind.
fn path_of(alloc: Global, settings: &Settings, field: &Field) -> Result<Vec<u8>, UseFault>
    ensures { IsMeaning (path_meaning settings.now field.now) result }
{
    match field {
        Field::List(list) => {
            let path = CacheStatus.answer(alloc, field)?;
            return Ok(path_texts(alloc, settings, list, &path)?);
        }
        _ => return Ok(Vec::new(alloc)),
    }
}

/// Returns the lines for the ignored members of a Priority field (RFC 9218), and its priority;
/// nothing if the settings give the field another kind.
fn priority_of(alloc: Global, settings: &Settings, field: &Field) -> Result<Vec<u8>, UseFault>
    ensures { IsMeaning (priority_meaning settings.now field.now) result }
{
    match field {
        Field::Dict(dict) => return Ok(priority_texts(alloc, settings, dict)?),
        _ => return Ok(Vec::new(alloc)),
    }
}

/// Returns the lines for the ignored members of a targeted cache control field (RFC 9213), and its
/// policy; nothing if the settings give the field another kind.
fn policy_of(alloc: Global, settings: &Settings, field: &Field) -> Result<Vec<u8>, UseFault>
    ensures { IsMeaning (policy_meaning settings.now field.now) result }
{
    match field {
        Field::Dict(dict) => return Ok(targeted_texts(alloc, settings, dict)?),
        _ => return Ok(Vec::new(alloc)),
    }
}

/// Returns the lines of the meaning of the field with this name; none if it has no meaning here.
pub(crate) fn meaning(
    alloc: Global,
    settings: &Settings,
    name: &str,
    field: &Field,
) -> Result<Vec<u8>, UseFault>
    ensures { IsMeaning (meaning_of settings.now name.now field.now) result }
{
    if name == "cache-status" {
        return path_of(alloc, settings, field);
    }
    if name == "priority" {
        return priority_of(alloc, settings, field);
    }
    if is_targeted(name.as_bytes()) {
        return policy_of(alloc, settings, field);
    }
    Ok(Vec::new(alloc))
}

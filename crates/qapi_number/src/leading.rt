ghost use Rattle.std.specs.Prelude.{◌≡◌, ◌++◌, IfOk, not};
ghost use Rattle.std.specs.List.{filter, list_any};
ghost use Rattle.std.specs.Str.{bytes_eq};
ghost use Rattle.qapi_number.specs.Prelude as told;

use crate::writing::{
    add_member, add_optional_array, add_value, defined, enum_named, event_named, returns,
    struct_named, takes,
};
use qapi_define::{Definition, DefinitionList, Sort};
use qm_base::{GrowingList, NoMemory};
use std::alloc::Global;

fn capability(alloc: Global) -> Result<Definition, NoMemory>
    ensures { IfOk result (λ d. d ≡ told.capability) }
{
    let mut values = GrowingList::new(alloc);
    add_value(alloc, &mut values, b"oob")?;
    enum_named(alloc, b"QMPCapability", values)
}

fn qmp_capabilities(alloc: Global) -> Result<Definition, NoMemory>
    ensures { IfOk result (λ d. d ≡ told.qmp_capabilities) }
{
    let mut members = GrowingList::new(alloc);
    add_optional_array(alloc, &mut members, b"enable", b"QMPCapability")?;
    takes(alloc, b"qmp_capabilities", true, members)
}

fn version_triple(alloc: Global) -> Result<Definition, NoMemory>
    ensures { IfOk result (λ d. d ≡ told.version_triple) }
{
    let mut members = GrowingList::new(alloc);
    add_member(alloc, &mut members, b"micro", b"int")?;
    add_member(alloc, &mut members, b"minor", b"int")?;
    add_member(alloc, &mut members, b"major", b"int")?;
    struct_named(alloc, b"VersionTriple", members)
}

fn version_info(alloc: Global) -> Result<Definition, NoMemory>
    ensures { IfOk result (λ d. d ≡ told.version_info) }
{
    let mut members = GrowingList::new(alloc);
    add_member(alloc, &mut members, b"qemu", b"VersionTriple")?;
    add_member(alloc, &mut members, b"package", b"str")?;
    struct_named(alloc, b"VersionInfo", members)
}

fn query_version(alloc: Global) -> Result<Definition, NoMemory>
    ensures { IfOk result (λ d. d ≡ told.query_version) }
{
    returns(alloc, b"query-version", true, b"VersionInfo", false)
}

fn command_info(alloc: Global) -> Result<Definition, NoMemory>
    ensures { IfOk result (λ d. d ≡ told.command_info) }
{
    let mut members = GrowingList::new(alloc);
    add_member(alloc, &mut members, b"name", b"str")?;
    struct_named(alloc, b"CommandInfo", members)
}

fn query_commands(alloc: Global) -> Result<Definition, NoMemory>
    ensures { IfOk result (λ d. d ≡ told.query_commands) }
{
    returns(alloc, b"query-commands", true, b"CommandInfo", true)
}

fn query_qmp_schema(alloc: Global) -> Result<Definition, NoMemory>
    ensures { IfOk result (λ d. d ≡ told.query_qmp_schema) }
{
    returns(alloc, b"query-qmp-schema", true, b"any", true)
}

fn job_status(alloc: Global) -> Result<Definition, NoMemory>
    ensures { IfOk result (λ d. d ≡ told.job_status) }
{
    let mut values = GrowingList::new(alloc);
    add_value(alloc, &mut values, b"undefined")?;
    add_value(alloc, &mut values, b"created")?;
    add_value(alloc, &mut values, b"running")?;
    add_value(alloc, &mut values, b"paused")?;
    add_value(alloc, &mut values, b"ready")?;
    add_value(alloc, &mut values, b"standby")?;
    add_value(alloc, &mut values, b"waiting")?;
    add_value(alloc, &mut values, b"pending")?;
    add_value(alloc, &mut values, b"aborting")?;
    add_value(alloc, &mut values, b"concluded")?;
    add_value(alloc, &mut values, b"null")?;
    enum_named(alloc, b"JobStatus", values)
}

fn job_info(alloc: Global) -> Result<Definition, NoMemory>
    ensures { IfOk result (λ d. d ≡ told.job_info) }
{
    let mut members = GrowingList::new(alloc);
    add_member(alloc, &mut members, b"id", b"str")?;
    add_member(alloc, &mut members, b"status", b"JobStatus")?;
    add_member(alloc, &mut members, b"current-progress", b"int")?;
    add_member(alloc, &mut members, b"total-progress", b"int")?;
    struct_named(alloc, b"JobInfo", members)
}

fn query_jobs(alloc: Global) -> Result<Definition, NoMemory>
    ensures { IfOk result (λ d. d ≡ told.query_jobs) }
{
    returns(alloc, b"query-jobs", false, b"JobInfo", true)
}

fn job_command(alloc: Global, name: &[u8]) -> Result<Definition, NoMemory>
    ensures { IfOk result (λ d. d ≡ told.job_command name.now) }
{
    let mut members = GrowingList::new(alloc);
    add_member(alloc, &mut members, b"id", b"str")?;
    takes(alloc, name, false, members)
}

fn quit(alloc: Global) -> Result<Definition, NoMemory>
    ensures { IfOk result (λ d. d ≡ told.quit) }
{
    defined(alloc, Sort::Command, b"quit", true, GrowingList::new(alloc))
}

fn job_status_change(alloc: Global) -> Result<Definition, NoMemory>
    ensures { IfOk result (λ d. d ≡ told.job_status_change) }
{
    let mut members = GrowingList::new(alloc);
    add_member(alloc, &mut members, b"id", b"str")?;
    add_member(alloc, &mut members, b"status", b"JobStatus")?;
    event_named(alloc, b"JOB_STATUS_CHANGE", members)
}

/// The definitions that stand before those of each schema.
pub fn prelude(alloc: Global) -> Result<DefinitionList, NoMemory>
    ensures { IfOk result (λ definitions. definitions ≡ told.prelude) }
{
    let mut list = GrowingList::new(alloc);
    list.push(capability(alloc)?)?;
    list.push(qmp_capabilities(alloc)?)?;
    list.push(version_triple(alloc)?)?;
    list.push(version_info(alloc)?)?;
    list.push(query_version(alloc)?)?;
    list.push(command_info(alloc)?)?;
    list.push(query_commands(alloc)?)?;
    list.push(query_qmp_schema(alloc)?)?;
    list.push(job_status(alloc)?)?;
    list.push(job_info(alloc)?)?;
    list.push(query_jobs(alloc)?)?;
    list.push(job_command(alloc, b"job-cancel")?)?;
    list.push(job_command(alloc, b"job-pause")?)?;
    list.push(job_command(alloc, b"job-resume")?)?;
    list.push(job_command(alloc, b"job-complete")?)?;
    list.push(job_command(alloc, b"job-finalize")?)?;
    list.push(job_command(alloc, b"job-dismiss")?)?;
    list.push(quit(alloc)?)?;
    list.push(job_status_change(alloc)?)?;
    Ok(list)
}

fn has_name(definitions: &[Definition], name: &[u8]) -> bool
    ensures { result ≡ list_any (λ d. bytes_eq d.name name.now) definitions.now }
{
    definitions
        .iter()
        .any(|other| other.name.as_slice() == name)
}

fn keep_others(known: &[Definition], kept: &mut Vec<Definition>)
    ensures { kept.new.items ≡ filter (λ d. not (list_any (λ e. bytes_eq e.name d.name) known.now)) kept.old.items }
{
    kept.retain(|definition| !has_name(known, definition.name.as_slice()));
}

fn without_names(known: &[Definition], definitions: DefinitionList) -> DefinitionList
    ensures { result ≡ filter (λ d. not (list_any (λ e. bytes_eq e.name d.name) known.now)) definitions }
{
    let mut kept = definitions.into_vec();
    keep_others(known, &mut kept);
    GrowingList::from_vec(kept)
}

fn add_all(list: DefinitionList, more: DefinitionList) -> Result<DefinitionList, NoMemory>
    ensures { IfOk result (λ all. all ≡ list ++ more) }
{
    let mut all = list.into_vec();
    let mut more = more.into_vec();
    match all.append(&mut more) {
        Ok(()) => Ok(GrowingList::from_vec(all)),
        Err(_) => Err(NoMemory),
    }
}

/// The definitions that stand before those of each schema, and then those of the schema whose
/// names are no names of the former.
pub fn with_prelude(alloc: Global, definitions: DefinitionList) -> Result<DefinitionList, NoMemory>
    ensures { IfOk result (λ all. all ≡ told.prelude ++ told.without_prelude_names definitions) }
{
    let first = prelude(alloc)?;
    let others = without_names(first.as_slice(), definitions);
    add_all(first, others)
}

ghost use Rattle.std.specs.Prelude.{◌≡◌, ◌<◌, ◌&&◌, not, find, codes, length, option_map};
ghost use Rattle.std.specs.Option.{option_copied};
ghost use Rattle.qm_json.specs.Members.{has_name, members_of};
ghost use Rattle.qm_caps.specs.Lanes.{is_in_band};
ghost use Rattle.qapi_types.specs.Lookups.{command_names, place_of};
ghost use Rattle.qm_admit.specs.Misfits.{is_object};
ghost use Rattle.qm_admit.specs.Views.{string_of};
ghost use Rattle.qm_core.specs.Inputs.{command_name_of, is_verb};
ghost use Rattle.qm_core.specs.Judged.{told, told_verdict};
ghost use Rattle.qm_core.specs.Planned.{command_by};
ghost use Rattle.qm_core.specs.Verdicts.{IsKnown, allows_out_of_band, bad_arguments, command_verdict_of, is_expected, malformed, misplaced, request_verdict_of, run_of, verdict_of};

use crate::arguments::arguments;
use crate::inputs::Input;
use crate::verdicts::{Refusal, Verdict};
use crate::world::World;
use qm_admit::{self, admit_args};
use qm_caps::{Lane, Mode, classify};
use qm_json::{Json, Member, has_member};

fn is_expected(mode: Mode, member: &Member) -> bool
    ensures { result ≡ is_expected mode member.now }
{
    let name = member.name.as_slice();
    name == b"execute".as_slice()
        || name == b"arguments".as_slice()
        || name == b"id".as_slice()
        || (mode.may_be_out_of_band() && name == b"exec-oob".as_slice())
}

fn is_verb(member: &Member) -> bool
    ensures { result ≡ is_verb member.now }
{
    let name = member.name.as_slice();
    name == b"execute".as_slice() || name == b"exec-oob".as_slice()
}

fn unexpected(mode: Mode, members: &[Member]) -> Option<&Member>
    ensures { option_copied result ≡ find (λ m. not (is_expected mode m)) members.now }
{
    members.iter().find(|member| !is_expected(mode, member))
}

fn verb(members: &[Member]) -> Option<&Member>
    ensures { option_copied result ≡ find is_verb members.now }
{
    members.iter().find(|member| is_verb(member))
}

fn has_two_verbs(members: &[Member]) -> bool
    ensures { result ≡ (has_name members.now (codes "execute")
        && has_name members.now (codes "exec-oob")) }
{
    has_member(members, b"execute") && has_member(members, b"exec-oob")
}

/// The bytes of a string.
pub(crate) fn string(value: &Json) -> Option<&[u8]>
    ensures { option_copied result ≡ string_of value.now }
{
    match value {
        Json::Str(text) => Some(text.as_slice()),
        _ => None,
    }
}

fn is_object(value: &Json) -> bool
    ensures { result ≡ is_object value.now }
{
    matches!(value, Json::Obj(_))
}

/// The members of an object; any other value has none.
pub(crate) fn members(value: &Json) -> &[Member]
    ensures { result.now ≡ members_of value.now }
{
    match value {
        Json::Obj(members) => members.as_slice(),
        _ => &[],
    }
}

/// The command that an object names, where it names one.
pub(crate) fn command_name(value: &Json) -> Option<&[u8]>
    ensures { option_copied result ≡ command_name_of value.now }
{
    match verb(members(value)) {
        Some(verb) => string(&verb.value),
        None => None,
    }
}

fn malformed(mode: Mode, value: &Json) -> Option<Refusal<'_>>
    ensures { option_map told result ≡ malformed mode value.now }
{
    if !is_object(value) {
        return Some(Refusal::NotAnObject);
    }
    let members = members(value);
    if let Some(member) = unexpected(mode, members) {
        return Some(Refusal::UnexpectedMember(member.name.as_slice()));
    }
    if has_two_verbs(members) {
        return Some(Refusal::TwoVerbs);
    }
    None
}

fn bad_arguments(value: &Json) -> Option<Refusal<'_>>
    ensures { option_map told result ≡ bad_arguments value.now }
{
    match arguments(value) {
        Some(arguments) if !is_object(arguments) => Some(Refusal::ArgumentsNoObject),
        _ => None,
    }
}

fn misplaced(mode: Mode, name: &[u8]) -> Option<Refusal<'_>>
    ensures { option_map told result ≡ misplaced mode name.now }
{
    let negotiates = name == b"qmp_capabilities".as_slice();
    if mode.is_negotiating() && !negotiates {
        return Some(Refusal::NegotiationExpected);
    }
    if !mode.is_negotiating() && negotiates {
        return Some(Refusal::NegotiationComplete);
    }
    None
}

fn is_unsupported(world: &World, lane: Lane, command: u32) -> bool
    requires id { command < length world.now.schema.commands }
    ensures { result ≡ (not (is_in_band lane) && not (allows_out_of_band world.now command)) }
{
    !lane.is_in_band() && !world.schema.command(command).allow_oob
}

fn run<'a>(world: &World, lane: Lane, name: &'a [u8], arguments: Option<&Json>) -> Verdict<'a>
    ensures value { let command = place_of (command_names world.now.schema) name.now in
        told_verdict result ≡ run_of world.now lane name.now (option_copied arguments.entry) command }
    ensures known { IsKnown world.now (told_verdict result) }
{
    let Some(command) = world.schema.find_command(name) else {
        return Verdict::Refused(Refusal::UnknownCommand(name));
    };
    if is_unsupported(world, lane, command) {
        return Verdict::Refused(Refusal::NotOutOfBand(name));
    }
    match admit_args(&world.schema, command, arguments) {
        qm_admit::Verdict::Yes => Verdict::Run(command),
        qm_admit::Verdict::No(fault, path) => Verdict::Refused(Refusal::Misfit(fault, path)),
    }
}

fn command_verdict<'a>(world: &World, mode: Mode, value: &'a Json, name: &'a [u8]) -> Verdict<'a>
    ensures value { told_verdict result ≡ command_verdict_of world.now mode value.now name.now }
    ensures known { IsKnown world.now (told_verdict result) }
{
    if let Some(refusal) = bad_arguments(value) {
        return Verdict::Refused(refusal);
    }
    if let Some(refusal) = misplaced(mode, name) {
        return Verdict::Refused(refusal);
    }
    run(world, classify(value, mode), name, arguments(value))
}

fn request_verdict<'a>(world: &World, mode: Mode, value: &'a Json) -> Verdict<'a>
    ensures value { told_verdict result ≡ request_verdict_of world.now mode value.now }
    ensures known { IsKnown world.now (told_verdict result) }
{
    if let Some(refusal) = malformed(mode, value) {
        return Verdict::Refused(refusal);
    }
    let Some(verb) = verb(members(value)) else {
        return Verdict::Refused(Refusal::NoVerb);
    };
    match string(&verb.value) {
        Some(name) => command_verdict(world, mode, value, name),
        None => Verdict::Refused(Refusal::VerbNoString(verb.name.as_slice())),
    }
}

/// The verdict on an input that was admitted in a mode (QMP specification, "Issuing Commands" and
/// "Capabilities Negotiation"): the first check that it fails, or the command that takes effect. It
/// takes no memory.
pub(crate) fn verdict<'a>(world: &World, mode: Mode, input: &'a Input) -> Verdict<'a>
    ensures value { told_verdict result ≡ verdict_of world.now mode input.now }
    ensures known { IsKnown world.now (told_verdict result) }
{
    match input {
        Input::Doc(value) => request_verdict(world, mode, value.get()),
        Input::Bad(bad) => Verdict::Refused(Refusal::BadInput(*bad)),
    }
}

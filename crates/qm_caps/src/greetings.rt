ghost use Rattle.std.specs.Prelude.{◌≡◌, IfOk, codes, [], ◌∷◌, pos};
ghost use Rattle.qm_caps.specs.Greetings.{greeting_value, version_value, named};
ghost use Rattle.qm_json.specs.declared.value.Json.{Json};
ghost use Rattle.qm_json.specs.declared.value.Json.TheVariants.{Int, Str, Arr, Obj};

use qm_base::NoMemory;
use qm_json::{Json, Members};
use sqlite_items::Items;
use std::alloc::Global;

fn numbers(alloc: Global) -> Result<Json, NoMemory>
    ensures { IfOk result (λ value. value ≡ Obj
        (named (codes "micro") (Int (pos 0)) ∷ named (codes "minor") (Int (pos 0)) ∷ named (codes "major") (Int (pos 1)) ∷ [])) }
{
    let mut members = Members::new(alloc);
    members.add(alloc, b"micro", Json::Int(0))?;
    members.add(alloc, b"minor", Json::Int(0))?;
    members.add(alloc, b"major", Json::Int(1))?;
    Ok(members.into_json())
}

/// The version of the server, which the greeting has and `query-version` returns.
pub fn version(alloc: Global) -> Result<Json, NoMemory>
    ensures { IfOk result (λ value. value ≡ version_value) }
{
    let mut members = Members::new(alloc);
    let numbers = numbers(alloc)?;
    members.add(alloc, b"qemu", numbers)?;
    let package = Json::string(alloc, b"qmpd")?;
    members.add(alloc, b"package", package)?;
    Ok(members.into_json())
}

fn capabilities(alloc: Global) -> Result<Json, NoMemory>
    ensures { IfOk result (λ value. value ≡ Arr (Str (codes "oob") ∷ [])) }
{
    let mut items = Items::new(alloc);
    let oob = Json::string(alloc, b"oob")?;
    items.push(oob)?;
    Ok(Json::Arr(items))
}

fn offered(alloc: Global) -> Result<Json, NoMemory>
    ensures { IfOk result (λ value. value ≡ Obj
        (named (codes "version") version_value ∷ named (codes "capabilities") (Arr (Str (codes "oob") ∷ [])) ∷ [])) }
{
    let mut members = Members::new(alloc);
    let version = version(alloc)?;
    members.add(alloc, b"version", version)?;
    let capabilities = capabilities(alloc)?;
    members.add(alloc, b"capabilities", capabilities)?;
    Ok(members.into_json())
}

/// The first line of a session (QMP specification, "Server Greeting").
pub fn greeting(alloc: Global) -> Result<Json, NoMemory>
    ensures { IfOk result (λ value. value ≡ greeting_value) }
{
    let mut members = Members::new(alloc);
    let offered = offered(alloc)?;
    members.add(alloc, b"QMP", offered)?;
    Ok(members.into_json())
}

ghost use Rattle.std.specs.Prelude.{◌≡◌, position};
ghost use Rattle.std.specs.Str.{bytes_eq};
ghost use Rattle.qapi_rules.specs.BuiltIns;

/// The names of the built-in types, in the order of the guide (QAPI code generation guide, "Built-in
/// Types").
pub const BUILT_INS: [&str; 16] = [
    "str", "number", "int", "int8", "int16", "int32", "int64", "uint8", "uint16", "uint32",
    "uint64", "size", "bool", "null", "any", "QType",
];

fn is_spelled(built_in: &str, name: &[u8]) -> bool
    ensures { result ≡ bytes_eq built_in.now name.now }
{
    built_in.as_bytes() == name
}

fn place_among(names: &[&str], name: &[u8]) -> Option<usize>
    ensures { result ≡ position (λ b. bytes_eq b.now name.now) names.now }
{
    names
        .iter()
        .position(|&built_in| is_spelled(built_in, name))
}

/// The place of the built-in type of the name in `BUILT_INS`; None where the name is no built-in
/// type's (QAPI code generation guide, "Built-in Types").
#[tactic(auto, unfolding(crate::specs::BuiltIns::built_in))]
pub fn built_in(name: &[u8]) -> Option<usize>
    ensures { result ≡ BuiltIns.built_in name.now }
{
    let names: [&str; 16] = BUILT_INS;
    place_among(names.as_slice(), name)
}

/// Whether the name is a built-in type's (QAPI code generation guide, "Built-in Types").
pub fn is_built_in(name: &[u8]) -> bool
    ensures { result ≡ BuiltIns.is_built_in name.now }
{
    built_in(name).is_some()
}

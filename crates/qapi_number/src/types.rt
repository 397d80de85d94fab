ghost use Rattle.std.specs.Prelude.{◌≡◌, ◌++◌, ◌+◌, [], map, length, IfOk, OnOk, option_copied, slice_get};
ghost use Rattle.qapi_types.specs.Lookups.{place_of};
ghost use Rattle.qapi_number.specs.TypeNames.{types_of, type_names, builtin_names, number_of_name, is_type_sort as type_test};

use crate::counting::narrow;
use crate::directory::Directory;
use qapi_define::{Definition, Sort};
use qm_base::{GrowingList, NoMemory};
use std::alloc::Global;
use std::marker::Model;

/// The definitions of types in their order, in which the number of each name of a type is found
/// without a walk, those of the built-in types included.
#[derive(Drop)]
pub struct TypeTable<'a> {
    definitions: GrowingList<&'a Definition>,
    names: Directory<'a>,
}

impl<'a> Model for TypeTable<'a> {
    ghost use Rattle.std.specs.Prelude.{◌≡◌, List, map};
    ghost use Rattle.std.specs.Coded.{coded_list};
    ghost use Rattle.qapi_define.specs.declared.definition.Definition.{Definition};
    ghost use Rattle.qapi_define.specs.contracts.definition.Definition as inner;
    ghost use Rattle.qapi_number.specs.TypeNames.{type_names};

    ghost Value = { List Definition };

    ghost coded = { coded_list inner.the_row.coded };

    ghost view = { λ t. map (λ k. k.now) t.definitions };

    ghost invariant = { λ t. t.names ≡ type_names (map (λ k. k.now) t.definitions) };
}

fn is_type(sort: Sort) -> bool
    ensures { result ≡ type_test sort }
{
    match sort {
        Sort::Command | Sort::Event => false,
        _ => true,
    }
}

fn definitions_of_types<'a>(
    alloc: Global,
    definitions: &'a [Definition],
) -> Result<GrowingList<&'a Definition>, NoMemory>
    ensures { IfOk result (λ types. map (λ k. k.now) types ≡ types_of definitions.now) }
{
    let mut types = GrowingList::new(alloc);
    for definition in definitions {
        if is_type(definition.sort) {
            types.push(definition)?;
        }
    }
    Ok(types)
}

fn add_defined_names<'a>(
    names: &mut GrowingList<&'a [u8]>,
    types: &[&'a Definition],
) -> Result<(), NoMemory>
    ensures { OnOk result (map (λ k. k.now) names.new ≡ map (λ k. k.now) names.old ++ map (λ d. d.name) (map (λ t. t.now) types.now)) }
{
    for definition in types {
        names.push(definition.name.as_slice())?;
    }
    Ok(())
}

fn builtin_names_in_order<'a>(alloc: Global) -> Result<GrowingList<&'a [u8]>, NoMemory>
    ensures { IfOk result (λ names. map (λ k. k.now) names ≡ builtin_names) }
{
    let mut names: GrowingList<&'a [u8]> = GrowingList::new(alloc);
    names.push(b"str")?;
    names.push(b"number")?;
    names.push(b"int")?;
    names.push(b"int8")?;
    names.push(b"int16")?;
    names.push(b"int32")?;
    names.push(b"int64")?;
    names.push(b"uint8")?;
    names.push(b"uint16")?;
    names.push(b"uint32")?;
    names.push(b"uint64")?;
    names.push(b"size")?;
    names.push(b"bool")?;
    names.push(b"null")?;
    names.push(b"any")?;
    names.push(b"QType")?;
    Ok(names)
}

fn add_names<'a>(names: &mut GrowingList<&'a [u8]>, more: &[&'a [u8]]) -> Result<(), NoMemory>
    ensures { OnOk result (map (λ k. k.now) names.new ≡ map (λ k. k.now) names.old ++ map (λ k. k.now) more.now) }
{
    for name in more {
        names.push(*name)?;
    }
    Ok(())
}

fn names_of_types<'a>(
    alloc: Global,
    types: &[&'a Definition],
) -> Result<GrowingList<&'a [u8]>, NoMemory>
    ensures { IfOk result (λ names. map (λ k. k.now) names ≡ type_names (map (λ k. k.now) types.now)) }
{
    let mut names = GrowingList::new(alloc);
    add_defined_names(&mut names, types)?;
    let builtin = builtin_names_in_order(alloc)?;
    add_names(&mut names, builtin.as_slice())?;
    Ok(names)
}

impl<'a> TypeTable<'a> {
    /// The types of definitions.
    pub fn of(alloc: Global, definitions: &'a [Definition]) -> Result<TypeTable<'a>, NoMemory>
        ensures { IfOk result (λ types. types ≡ types_of definitions.now) }
    {
        let definitions = definitions_of_types(alloc, definitions)?;
        let names = names_of_types(alloc, definitions.as_slice())?;
        let names = Directory::of(alloc, names)?;
        Ok(TypeTable { definitions, names })
    }

    /// How many types have names, the built-in types included.
    pub fn named(&self) -> usize
        ensures { result ≡ length (type_names self.now) }
    {
        self.names.len()
    }

    /// How many types are defined.
    pub fn defined(&self) -> usize
        ensures { result ≡ length self.now }
    {
        self.definitions.len()
    }

    /// The place of the name among those of types; None exactly where it is not there. It takes
    /// no memory.
    pub fn place(&self, name: &[u8]) -> Option<usize>
        ensures { result ≡ place_of (type_names self.now) name.now }
    {
        self.names.place(name)
    }

    /// The number of the first type of the name; 0 where there is none. It takes no memory.
    pub fn number(&self, name: &[u8]) -> Result<u32, NoMemory>
        ensures { IfOk result (λ n. n ≡ number_of_name self.now name.now) }
    {
        match self.place(name) {
            Some(place) => narrow(place),
            None => Ok(0),
        }
    }

    /// The definitions of types in their order.
    pub fn definitions(&self) -> &[&'a Definition]
        ensures { map (λ k. k.now) result.now ≡ self.now }
    {
        self.definitions.as_slice()
    }

    /// The definition of the type of the number; None where it is not defined.
    pub fn definition(&self, number: u32) -> Option<&'a Definition>
        ensures { option_copied result ≡ slice_get self.now number }
    {
        self.definitions.as_slice().get(number as usize).copied()
    }
}

ghost use Rattle.std.specs.Prelude.{◌≡◌, ◌<◌, ◌≤◌, ◌+◌, ◌^◌, [], length, IfSome, slice_index_or};
ghost use Rattle.std.specs.List.{All};
ghost use Rattle.qapi_types.specs.Lookups.{place_of};
ghost use Rattle.qapi_types.specs.Types.{kind_of, members_of, member_names};
ghost use Rattle.qapi_types.specs.declared.kind.MemberDef.{MemberDef as TypeMember};
ghost use Rattle.qm_admit.specs.declared.members.Block.{Block as Places};
ghost use Rattle.qm_admit.specs.Blocks.{ArePlaced, Covers, noted, slot_of};
ghost use Rattle.qm_admit.specs.Walks.{place_of_name};

use qapi_types::{MemberDef, Schema};
use qm_json::Member;

/// Among at most so many given members a name is found by going through them, without a block.
pub const FEW: usize = 8;

/// The positions of the given members of 256 of a type's members, from one on.
#[derive(Clone, Copy)]
pub struct Block {
    /// The position of the first of these members of the type.
    pub start: usize,
    /// For each of them the position of the first given member of its name.
    pub places: [Option<usize>; 256],
}

/// Where the type's member of the name stands among 256, of which the first is at the position.
fn slot(schema: &Schema, type_id: u32, start: usize, name: &[u8]) -> Option<usize>
    requires { type_id < length schema.now.kinds }
    ensures value { result ≡ slot_of start (place_of (member_names (kind_of schema.now.kinds type_id)) name.now) }
    ensures within { IfSome result (λ k. k < 256) }
{
    let position = schema.find_member(type_id, name)? as usize;
    if position < start {
        return None;
    }
    if position - start < 256 {
        Some(position - start)
    } else {
        None
    }
}

fn note(places: &mut [Option<usize>; 256], slot: Option<usize>, position: usize)
    requires { IfSome slot (λ k. k < 256) }
    ensures { places.new ≡ noted places.old slot position }
{
    match slot {
        None => {}
        Some(k) => places[k] = Some(position),
    }
}

/// The positions of the given members of 256 of the type's members, of which the first is at the
/// position.
pub fn block_of(schema: &Schema, type_id: u32, given: &[Member], start: usize) -> Block
    requires { type_id < length schema.now.kinds }
    ensures start { result.start ≡ start }
    ensures placed { ArePlaced given.now (member_names (kind_of schema.now.kinds type_id)) result.start result.places }
{
    let _parts = schema.parts();
    let mut places = [None; 256];
    let mut i = given.len();
    while i > 0 {
        i -= 1;
        let found = slot(schema, type_id, start, given[i].name.as_slice());
        note(&mut places, found, i);
    }
    Block { start, places }
}

/// Sees that the type's member at the position is one of those in the block.
fn cover(schema: &Schema, type_id: u32, given: &[Member], block: &mut Block, position: usize)
    requires id { type_id < length schema.now.kinds }
    requires placed { ArePlaced given.now (member_names (kind_of schema.now.kinds type_id)) block.old.start block.old.places }
    ensures covers { Covers block.new.start position }
    ensures placed { ArePlaced given.now (member_names (kind_of schema.now.kinds type_id)) block.new.start block.new.places }
{
    if block.start <= position && position - block.start < 256 {
        return;
    }
    *block = block_of(schema, type_id, given, position);
}

/// What `place_at` answers, by a block. To make one anew takes much of a frame, so that this keeps
/// its own.
#[inline(never)]
fn place_in_block(
    schema: &Schema,
    type_id: u32,
    given: &[Member],
    block: &mut Block,
    position: usize,
) -> Option<usize>
    requires id { type_id < length schema.now.kinds }
    requires position { position < length (member_names (kind_of schema.now.kinds type_id)) }
    requires placed { ArePlaced given.now (member_names (kind_of schema.now.kinds type_id)) block.old.start block.old.places }
    ensures value { result ≡ place_of_name given.now (slice_index_or (member_names (kind_of schema.now.kinds type_id)) position []) }
    ensures placed { ArePlaced given.now (member_names (kind_of schema.now.kinds type_id)) block.new.start block.new.places }
{
    cover(schema, type_id, given, block, position);
    block.places[position - block.start]
}

/// The position of the first given member of the name.
fn place_of_name(given: &[Member], name: &[u8]) -> Option<usize>
    ensures { result ≡ place_of_name given.now name.now }
{
    given.iter().position(|m| m.name.as_slice() == name)
}

/// The position of the first given member of the name of the type's member at the position: by the
/// first block, and where there is none by going through the given members.
pub fn place_at(
    schema: &Schema,
    type_id: u32,
    given: &[Member],
    blocks: &mut [Block],
    position: usize,
) -> Option<usize>
    requires id { type_id < length schema.now.kinds }
    requires position { position < length (member_names (kind_of schema.now.kinds type_id)) }
    requires placed { All (λ (b : Places). ArePlaced given.now (member_names (kind_of schema.now.kinds type_id)) b.start b.places) blocks.old }
    ensures value { result ≡ place_of_name given.now (slice_index_or (member_names (kind_of schema.now.kinds type_id)) position []) }
    ensures within { IfSome result (λ i. i < length given.now) }
    ensures placed { All (λ (b : Places). ArePlaced given.now (member_names (kind_of schema.now.kinds type_id)) b.start b.places) blocks.new }
{
    if blocks.is_empty() {
        let name = own_members(schema, type_id)[position].name.as_slice();
        return place_of_name(given, name);
    }
    place_in_block(schema, type_id, given, &mut blocks[0], position)
}

/// The members of the type.
pub fn own_members(schema: &Schema, type_id: u32) -> &[MemberDef]
    requires { type_id < length schema.now.kinds }
    ensures value { result.now ≡ members_of (kind_of schema.now.kinds type_id) }
    ensures within { All (λ (m : TypeMember). m.type_id < length schema.now.kinds) result.now }
    ensures few { length result.now < 2 ^ 32 }
{
    let _parts = schema.parts();
    schema.kind(type_id).members()
}

use itoa::Buffer;
use qm_base::{NoMemory, Text};
use std::alloc::Global;

/// Which bytes a run is over.
#[derive(Clone, Copy)]
pub enum Shape {
    /// An array of requests, of 1 MB, 20 times.
    Large,
    /// A thousand requests of 40 bytes, each a message, 1000 times.
    Small,
    /// The array of `Large`, once.
    One,
    /// What stands on standard input, once.
    Given,
}

impl Shape {
    /// The shape of this name.
    pub fn named(name: &str) -> Option<Shape> {
        match name {
            "large" => Some(Shape::Large),
            "small" => Some(Shape::Small),
            "one" => Some(Shape::One),
            "given" => Some(Shape::Given),
            _ => None,
        }
    }
}

/// The bytes that a run is over, and how often they are given.
#[derive(Drop)]
pub struct Load {
    pub block: Text,
    pub times: u32,
}

/// Appends a request of 40 bytes.
fn request(block: &mut Text, number: u32) -> Result<(), NoMemory> {
    let mut buffer = Buffer::new();
    block.extend(b"{\"execute\": \"query-version\", \"id\": ")?;
    block.extend(buffer.format(1000 + number % 9000).as_bytes())?;
    block.push(b'}')
}

/// Requests with these bytes between them, and a text round them.
fn requests(
    alloc: Global,
    count: u32,
    before: &[u8],
    between: &[u8],
    after: &[u8],
) -> Result<Text, NoMemory> {
    let mut block = Text::of(alloc, before)?;
    for number in 0..count {
        if number > 0 {
            block.extend(between)?;
        }
        request(&mut block, number)?;
    }
    block.extend(after)?;
    Ok(block)
}

impl Load {
    /// The bytes of a shape.
    pub fn of(alloc: Global, shape: Shape, given: &[u8]) -> Result<Load, NoMemory> {
        let (block, times) = match shape {
            Shape::Large => (requests(alloc, 23_809, b"[", b", ", b"]")?, 20),
            Shape::Small => (requests(alloc, 1000, b"", b"\n", b"\n")?, 1000),
            Shape::One => (requests(alloc, 23_809, b"[", b", ", b"]")?, 1),
            Shape::Given => (Text::of(alloc, given)?, 1),
        };
        Ok(Load { block, times })
    }
}

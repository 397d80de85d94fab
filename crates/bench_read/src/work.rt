use crate::load::Load;
use qm_base::{NoMemory, Text};
use qm_frame::{Framer, Step};
use qm_json::Json;
use qm_read::{JsonFault, read};
use std::alloc::Global;

/// What is done with the bytes.
#[derive(Clone, Copy)]
pub enum Way {
    /// They are cut into messages.
    Frame,
    /// Each message is read too.
    Read,
    /// Each value is printed too.
    Print,
}

impl Way {
    /// The way of this name.
    pub fn of(name: &str) -> Option<Way> {
        match name {
            "frame" => Some(Way::Frame),
            "read" => Some(Way::Read),
            "print" => Some(Way::Print),
            _ => None,
        }
    }
}

/// The length of a value's text.
fn printed(alloc: Global, value: &Json) -> Result<usize, NoMemory> {
    let mut text = Text::new(alloc);
    value.write_text(&mut text)?;
    Ok(text.len())
}

/// What a message counts: 1, if it is a value or is not read, or the length of its printed text.
fn counted(alloc: Global, way: Way, message: &[u8]) -> Result<usize, NoMemory> {
    if matches!(way, Way::Frame) {
        return Ok(1);
    }
    match read(alloc, message) {
        Ok(value) => match way {
            Way::Print => printed(alloc, &value),
            Way::Frame | Way::Read => Ok(1),
        },
        Err(JsonFault::Memory) => Err(NoMemory),
        Err(_) => Ok(0),
    }
}

/// What the messages of these bytes count together.
fn pass(alloc: Global, way: Way, framer: &mut Framer, bytes: &[u8]) -> Result<usize, NoMemory> {
    let mut sum = 0usize;
    for &byte in bytes {
        match framer.push(byte) {
            Step::Frame => sum = sum.wrapping_add(counted(alloc, way, framer.frame())?),
            Step::More | Step::Bad(_) => {}
        }
    }
    Ok(sum)
}

/// What the messages of a run count together.
pub fn run(alloc: Global, way: Way, load: &Load) -> Result<usize, NoMemory> {
    let mut framer = Framer::new(alloc)?;
    let mut sum = 0usize;
    for _ in 0..load.times {
        sum = sum.wrapping_add(pass(alloc, way, &mut framer, load.block.as_slice())?);
    }
    Ok(sum)
}

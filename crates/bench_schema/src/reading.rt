use qapi_lex::lex;
use qapi_load::{FileList, LibraryFile, MemoryLibrary, load_files};
use qapi_tree::parse;
use qm_base::{CallList, Text};
use std::alloc::Global;

fn lexed(alloc: Global, text: &[u8]) -> Option<usize> {
    match lex(alloc, text) {
        Ok(tokens) => Some(tokens.as_slice().len()),
        Err(_) => None,
    }
}

fn parsed(alloc: Global, text: &[u8]) -> Option<usize> {
    let Ok(tokens) = lex(alloc, text) else {
        return None;
    };
    match parse(alloc, &tokens) {
        Ok(exprs) => Some(exprs.as_slice().len()),
        Err(_) => None,
    }
}

/// A library of the text alone, under the name `main`.
pub fn library(alloc: Global, text: &[u8]) -> Option<MemoryLibrary> {
    let (Ok(name), Ok(text)) = (Text::of(alloc, b"main"), Text::of(alloc, text)) else {
        return None;
    };
    let mut files = FileList::new(alloc);
    match files.push(LibraryFile::new(name, text)) {
        Ok(()) => Some(MemoryLibrary::new(alloc, files, CallList::new(alloc))),
        Err(_) => None,
    }
}

fn loaded(alloc: Global, text: &[u8]) -> Option<usize> {
    let mut library = library(alloc, text)?;
    match load_files(alloc, &mut library, b"main") {
        Ok(sources) => Some(sources.as_slice().len()),
        Err(_) => None,
    }
}

/// How many tokens or expressions a text has, by the way in which it is to be read.
pub fn read(alloc: Global, way: &str, text: &[u8]) -> Option<usize> {
    match way {
        "lex" => lexed(alloc, text),
        "parse" => parsed(alloc, text),
        "load" => loaded(alloc, text),
        _ => None,
    }
}

// What is done with a text.
use dtal_code::print;
use dtal_driver::dtal_top;
use dtal_text::{TextError, read};
use std::alloc::Global;
use xan_io::{MemFiles, MemSink, Memory};

/// How many of the bytes begin a text, or none where they are one.
pub fn fault_of(alloc: Global, text: &[u8]) -> Result<Option<u64>, Memory> {
    match read(alloc, text) {
        Ok(_) => Ok(None),
        Err(TextError::Fault { at }) => Ok(Some(at)),
        Err(TextError::Memory) => Err(Memory),
    }
}

/// Whether the text is read, and printed as it was.
pub fn is_printed_again(alloc: Global, text: &[u8]) -> bool {
    match read(alloc, text) {
        Ok(program) => matches!(print(alloc, &program), Ok(again) if again.as_slice() == text),
        Err(_) => false,
    }
}

/// What `verify` says of a text.
pub fn said_of(alloc: Global, text: &[u8]) -> Result<Vec<u8>, Memory> {
    let mut files = MemFiles::new(alloc, Vec::new(alloc));
    files.set("text", text)?;
    let mut out = MemSink::new(alloc, 1000, Vec::new(alloc))?;
    let _status = dtal_top(alloc, &["verify", "text"], &mut files, &mut out);
    Ok(Vec::from_slice(alloc, out.bytes())?)
}

/// The text of these types and functions.
pub fn text_of(alloc: Global, functions: &[u8]) -> Result<Vec<u8>, Memory> {
    let mut text = Vec::from_slice(alloc, b"dtal 1\n")?;
    text.extend_from_slice(functions)?;
    Ok(text)
}

/// Whether this is said of the text of these types and functions.
pub fn says(alloc: Global, functions: &[u8], line: &[u8]) -> Result<bool, Memory> {
    let text = text_of(alloc, functions)?;
    let said = said_of(alloc, text.as_slice())?;
    Ok(said.as_slice() == line)
}

// The words that the program was called with. Nothing is known of them.
use std::alloc::Global;
use std::env;
use std::io::ErrorKind;
use std::rt::Env;

/// Why the words of a command line can't be had.
#[derive(Clone, Copy)]
pub enum WordsFail {
    /// One of them is no text.
    NoText,
    /// There was no memory.
    Memory,
}

/// The words behind the program's name.
pub fn command_words<R: Env + AllocGlobal>(rt: &R) -> Result<Vec<String>, WordsFail> {
    let all = match env::args(rt) {
        Ok(all) => all,
        Err(error) if error.kind() == ErrorKind::OutOfMemory => return Err(WordsFail::Memory),
        Err(_) => return Err(WordsFail::NoText),
    };
    let mut words = Vec::new(rt.alloc());
    for word in all.skip(1) {
        if words.push(word).is_err() {
            return Err(WordsFail::Memory);
        }
    }
    Ok(words)
}

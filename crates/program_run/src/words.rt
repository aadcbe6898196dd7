//! The words of a command line.
use std::alloc::{AllocError, Global};
use std::env;
use std::env::Env;
use std::io::ErrorKind;

/// The words of the command line but the first `skipped`, of which the first is the program's name; none where one is
/// not text, since nothing is asked for by such. No clause says what the system hands over.
pub fn command_words<R: Env + Alloc<A = Global>>(
    rt: &R,
    skipped: usize,
) -> Result<Vec<String>, AllocError> {
    let mut words = Vec::new(rt.alloc());
    match env::args(rt) {
        Ok(all) => {
            for word in all.skip(skipped) {
                words.push(word)?;
            }
        }
        Err(error) => {
            if error.kind() == ErrorKind::OutOfMemory {
                return Err(AllocError);
            }
        }
    }
    Ok(words)
}

//! The words of the command line.
use std::env;
use std::rt::Env;

/// The words of the command line; none where they cannot be read as a whole, which is no command.
pub fn words<R: Env + AllocGlobal>(rt: &R) -> Vec<String> {
    match env::args(rt) {
        Ok(args) => args.collect(rt.alloc()).unwrap_or(Vec::new(rt.alloc())),
        Err(_) => Vec::new(rt.alloc()),
    }
}

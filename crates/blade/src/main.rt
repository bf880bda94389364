//! `blade`: hardens WebAssembly modules against speculative leaks.
#![tactic(auto)]

use bl_app::blade;
use bl_outside::{FileShelf, WriterSink};
use std::env;
use std::io::{ErrorKind, writer};
use std::process::ExitCode;

/// Where the system doesn't give the words, the status is that of want of memory, or that of no request.
fn main(rt: HostRuntime) -> ExitCode {
    let words = match env::args(&rt).and_then(|words| Ok(words.collect::<Vec<String>>(
        rt.alloc(),
    )?)) {
        Ok(words) => words,
        Err(e) if e.kind() == ErrorKind::OutOfMemory => return ExitCode::from(11),
        Err(_) => return ExitCode::from(2),
    };
    let mut files = FileShelf::new(rt.alloc(), &rt);
    let mut out = WriterSink::new(writer(&rt));
    ExitCode::from(blade(rt.alloc(), words.as_slice(), &mut files, &mut out))
}

//! Prints templates and encodings for tools/checks/machine_code, which runs the templates on the processor and has objdump read the encodings. An
//! argument selects what is printed: `sets`, `accesses`, `branches` or `forms`. Without an argument a few cases of each kind are printed.
#![tactic(auto)]

mod accesses;
mod branches;
mod case;
mod forms;
mod intel;
mod sets;
mod text;

use accesses::{each_access_case, few_access_cases};
use bl_base::NoMemory;
use branches::{each_branch_case, few_branch_cases};
use forms::{each_form, few_forms};
use sets::{each_set_case, few_set_cases};
use std::alloc::Global;
use std::env;
use std::io::{self, ErrorKind, Write, writer};

/// Whether the first argument is a word.
fn is_word(words: &[String], word: &str) -> bool {
    match words.get(1) {
        Some(first) => first.as_str() == word,
        None => false,
    }
}

/// Appends a few cases of each kind.
fn few_cases(alloc: Global, text: &mut Vec<u8>) -> Result<(), NoMemory> {
    few_set_cases(alloc, text)?;
    few_access_cases(alloc, text)?;
    few_branch_cases(alloc, text)?;
    few_forms(alloc, text)
}

/// Appends the cases that the arguments ask for.
fn push_cases(alloc: Global, words: &[String], text: &mut Vec<u8>) -> Result<(), NoMemory> {
    if is_word(words, "sets") {
        return each_set_case(alloc, text);
    }
    if is_word(words, "accesses") {
        return each_access_case(alloc, text);
    }
    if is_word(words, "branches") {
        return each_branch_case(alloc, text);
    }
    if is_word(words, "forms") {
        return each_form(alloc, text);
    }
    few_cases(alloc, text)
}

/// Prints the cases that the arguments ask for.
fn main(rt: HostRuntime) -> io::Result<()> {
    let words = env::args(&rt)?.collect::<Vec<String>>(rt.alloc())?;
    let mut text: Vec<u8> = Vec::new(rt.alloc());
    match push_cases(rt.alloc(), &words, &mut text) {
        Ok(()) => writer(&rt).write_all(&text),
        Err(NoMemory) => Err(ErrorKind::OutOfMemory.into()),
    }
}

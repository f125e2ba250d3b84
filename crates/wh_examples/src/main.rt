//! Takes files one after the other. Behind the word `answers`, and at first, it searches for a proof or a loop of each
//! system, gives what is found to the check, and writes a line with what the check says of it, or why nothing was
//! found: so the examples of the repository stand in a table that each run of the tests makes anew. Behind the word
//! `rows` it goes through sheets of rows, each a run of the program with what it is to write. Behind the word
//! `components` it writes how many components the pairs of a system have, to be timed.
#![tactic(auto)]

mod answers;
mod components;
mod rows;

use answers::add_answer;
use components::add_count;
use rows::{Sheet, add_rows};
use std::alloc::{AllocError, Global};
use std::env;
use std::process::ExitCode;
use std::rt::{Env, Files};
use wh_io::{FileShelf, Shelf, StdSink, read_whole, write_all_of};
use wh_types::Bytes;

/// The task that a file is given for.
#[derive(Clone, Copy)]
enum Task {
    Answers,
    Components,
    Rows,
}

/// How many bytes a file may have.
pub const SYSTEM_LIMIT: u64 = 1_048_576;

fn main(rt: HostRuntime) -> ExitCode {
    let Ok(text) = lines(&rt) else {
        return ExitCode::from(1);
    };
    let mut out = StdSink::new(rt.stdout());
    match write_all_of(&mut out, text.as_slice()) {
        Ok(()) => ExitCode::from(0),
        Err(_) => ExitCode::from(2),
    }
}

/// The lines of all files; want of memory stands for all else.
fn lines<R: Env + Files + AllocGlobal>(rt: &R) -> Result<Bytes, AllocError> {
    let alloc = rt.alloc();
    let mut shelf = FileShelf::new(rt);
    let mut text = Bytes::new(alloc);
    let mut sheet = Sheet::new(alloc)?;
    let mut task = Task::Answers;
    for word in env::args(rt).or(Err(AllocError))?.skip(1) {
        match word.as_str() {
            "answers" => task = Task::Answers,
            "components" => task = Task::Components,
            "rows" => task = Task::Rows,
            file => add_file(alloc, &mut shelf, task, file, &mut sheet, &mut text)?,
        }
    }
    Ok(text)
}

// What is made of one file joins the text.
fn add_file<S: Shelf>(
    alloc: Global,
    shelf: &mut S,
    task: Task,
    file: &str,
    sheet: &mut Sheet,
    text: &mut Bytes,
) -> Result<(), AllocError> {
    let bytes = read_whole(alloc, shelf, file, SYSTEM_LIMIT).or(Err(AllocError))?;
    match task {
        Task::Answers => add_answer(alloc, file, &bytes, text),
        Task::Components => add_count(alloc, &bytes, text),
        Task::Rows => add_rows(alloc, file, &bytes, sheet, text),
    }
}

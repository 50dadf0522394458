//! Runs the examples of the documents over a world in memory, and compares what the program says
//! with the replies that stand beside them.
//!
//! Each word is a document, as `SCRIPT.md`, or scripts that run one after the other over the same
//! images, as `first+second`: of each, the file `first.tm` has the lines and `first.replies` the
//! replies. How a document writes its examples is said in `docs/SCRIPT.md`, "Examples".
#![tactic(auto)]

mod document;
mod example;

use crate::document::Document;
use crate::example::{Example, Images, says};
use std::env::args;
use std::process::ExitCode;
use std::rt::{Env, Files};
use std::{fs, io};

/// How many examples were run, and how many of them are answered otherwise.
#[derive(Clone, Copy, Debug, PartialEq, Eq)]
struct Counts {
    run: u64,
    differ: u64,
}

impl Counts {
    // Counts an example.
    fn count(&mut self, differs: bool) {
        self.run = self.run.saturating_add(1);
        if differs {
            self.differ = self.differ.saturating_add(1);
        }
    }
}

// Runs an example; where it is answered otherwise, its lines and what it says are printed.
fn compare<R: Print + AllocGlobal>(rt: &R, example: &Example) -> io::Result<bool> {
    let said = says(rt.alloc(), example)?;
    if said.as_str() == example.replies() {
        return Ok(false);
    }
    println!(rt; "An example is answered otherwise:")?;
    for script in example.scripts() {
        println!(rt; "{script}")?;
    }
    println!(rt; "It says:\n{said}")?;
    Ok(true)
}

// Runs each example of a document.
fn run_document<R: Files + Print + AllocGlobal>(
    rt: &R,
    name: &str,
    counts: &mut Counts,
) -> io::Result<()> {
    let text = fs::read_to_string(rt, name)?;
    let mut document = Document::new(rt.alloc());
    for line in text.as_str().lines() {
        if let Some(example) = document.read(line)? {
            counts.count(compare(rt, &example)?);
        }
    }
    Ok(())
}

// Runs scripts one after the other over the same images.
fn run_scripts<R: Files + Print + AllocGlobal>(
    rt: &R,
    names: &str,
    counts: &mut Counts,
) -> io::Result<()> {
    let mut example = Example::new(rt.alloc(), Images::Usual);
    for name in names.split('+') {
        let script = format!(in rt.alloc(); "{name}.tm")?;
        let replies = format!(in rt.alloc(); "{name}.replies")?;
        let script = fs::read_to_string(rt, script.as_str())?;
        let replies = fs::read_to_string(rt, replies.as_str())?;
        example.add(script, replies.as_str())?;
    }
    counts.count(compare(rt, &example)?);
    Ok(())
}

// Runs what each word after the program's name says.
fn run_words<R: Env + Files + Print + AllocGlobal>(rt: &R) -> io::Result<Counts> {
    let mut counts = Counts { run: 0, differ: 0 };
    let words: Vec<String> = args(rt)?.collect(rt.alloc())?;
    for word in words.as_slice().iter().skip(1) {
        if word.as_str().ends_with(".md") {
            run_document(rt, word.as_str(), &mut counts)?;
        } else {
            run_scripts(rt, word.as_str(), &mut counts)?;
        }
    }
    Ok(counts)
}

fn main(rt: HostRuntime) -> io::Result<ExitCode> {
    let Counts { run, differ } = run_words(&rt)?;
    println!(rt; "{run} examples, {differ} of them answered otherwise")?;
    Ok(ExitCode::from(if differ == 0 { 0u8 } else { 1u8 }))
}

//! Tells a person what a server makes of a request file, or what it wrote.
#![tactic(auto)]

mod run;
mod words;
mod written;

use crate::run::print_run;
use crate::written::print_records;
use cases::starting_values;
use reading::input::read_input;
use scheduler::rule::{DeferredUpdates, WritersPassReaders};
use std::io::Read;
use std::{env, io};
use store::in_place::InPlace;
use store::private::Private;

/// What the program is asked to tell. A word picks it, so a match says it more plainly than a closure for each; the first two say only
/// which store and which rule, as each server does.
#[derive(Clone, Copy)]
enum Task {
    /// A request file, as so1 runs it.
    InPlace,
    /// A request file, as so2 runs it.
    Beside,
    /// The records that a server wrote.
    Records,
}

fn asked(rt: &HostRuntime) -> io::Result<Task> {
    let mut words = env::args(rt)?.skip(1);
    let Some(word) = words.next() else {
        return Ok(Task::InPlace);
    };
    match word.as_str() {
        "so1" => Ok(Task::InPlace),
        "so2" => Ok(Task::Beside),
        "answers" => Ok(Task::Records),
        other => {
            eprintln!(rt; "account: {other} is none of so1, so2 and answers")?;
            Err(io::Error::from(io::ErrorKind::InvalidInput))
        }
    }
}

fn main(rt: HostRuntime) -> io::Result<()> {
    let task = asked(&rt)?;
    let mut values = starting_values();
    match task {
        Task::InPlace => {
            let input = read_input(rt.alloc(), rt.stdin())?;
            let store = InPlace::open(&mut values);
            print_run(&rt, store, WritersPassReaders, &input)
        }
        Task::Beside => {
            let input = read_input(rt.alloc(), rt.stdin())?;
            let store = Private::open(&mut values);
            print_run(&rt, store, DeferredUpdates, &input)
        }
        Task::Records => {
            let mut records = Vec::new(rt.alloc());
            rt.stdin().read_to_end(&mut records)?;
            print_records(&rt, &records)
        }
    }
}

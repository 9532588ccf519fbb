// A request file, run through the scheduler and told in words.
use crate::words::{Answered, StillOpen};
use history::run::{Finished, run};
use reading::file::Placed;
use reading::requests::requests_in;
use records::answer::Answer;
use records::refusal::Refusal;
use scheduler::reply::Reply;
use scheduler::rule::LockRule;
use scheduler::scheduler::Scheduler;
use scheduler::transaction::NOBODY;
use server::serve::requests;
use std::io;
use store::store::Store;

fn print_answers(
    rt: &impl Print,
    found: &[Placed],
    answers: &[Result<Reply, Refusal>],
) -> io::Result<()> {
    for (placed, answer) in found.iter().zip(answers) {
        println!(rt; "{placed}")?;
        println!(rt; "    {}", Answered(*answer))?;
    }
    Ok(())
}

fn print_open<S: Store, R: LockRule>(
    rt: &impl Print,
    scheduler: &Scheduler<S, R>,
) -> io::Result<()> {
    for transaction in scheduler.transactions() {
        println!(rt; "{}", StillOpen(*transaction))?;
    }
    Ok(())
}

fn print_values(rt: &impl Print, store: &impl Store) -> io::Result<()> {
    // A store has no list of its items to go through, and `as` loses nothing: no store has more than 65,536.
    for index in 0..store.size() {
        let item = index as u16;
        if let Ok(value) = store.look(NOBODY, item)
            && value != 0
        {
            println!(rt; "{}", Answer::Holds { item, value })?;
        }
    }
    Ok(())
}

/// Runs the requests over a store and a rule, and prints all that came of it.
pub(crate) fn print_run<S: Store + Drop, R: LockRule + Drop>(
    rt: &HostRuntime,
    store: S,
    rule: R,
    input: &[u8],
) -> io::Result<()> {
    let (found, ending) = requests_in(rt.alloc(), input)?;
    let calls = requests(rt.alloc(), &found)?;
    let Finished { answers, scheduler } = run(rt.alloc(), store, rule, &calls)?;
    print_answers(rt, &found, &answers)?;
    println!(rt; "{ending}")?;
    print_open(rt, &scheduler)?;
    print_values(rt, &scheduler.into_store())
}

//! Two lanes post a game each to one season total, and a desk reads it, in turns over one scheduler. Prints the account.
#![tactic(auto)]

mod account;
mod desk;
mod lane;
mod said;

use crate::account::Account;
use crate::desk::Desk;
use crate::lane::Lane;
use posting::posting::Posting;
use scheduler::rule::{LockRule, WritersPassReaders};
use scheduler::scheduler::Scheduler;
use scheduler::transaction::NOBODY;
use std::io;
use store::in_place::InPlace;
use store::store::Store;

/// The item that holds the team's total.
const TEAM: u16 = 5;

// Turns go round until nobody has a ticket.
fn take_turns<S: Store, R: LockRule, P: Print>(
    account: &mut Account<P>,
    scheduler: &mut Scheduler<S, R>,
    mut first: Lane,
    mut second: Lane,
    mut desk: Desk,
) {
    loop {
        match (first, second, desk) {
            (Lane::Done, Lane::Done, Desk::Done) => return,
            (one, two, reader) => {
                first = one.turn(account, scheduler, "lane 1");
                second = two.turn(account, scheduler, "lane 2");
                desk = reader.turn(account, scheduler);
            }
        }
    }
}

fn play<S: Store + Drop, R: LockRule + Drop>(
    rt: &impl Print,
    mut scheduler: Scheduler<S, R>,
) -> io::Result<()> {
    let first = Lane::Playing(Posting::new(TEAM, 185, 4));
    let second = Lane::Resting {
        rounds: 1,
        posting: Posting::new(TEAM, 212, 4),
    };
    let mut account = Account::new(rt);
    take_turns(&mut account, &mut scheduler, first, second, Desk::Fresh);
    account.close()?;
    match scheduler.into_store().look(NOBODY, TEAM) {
        Ok(total) => println!(rt; "the total is {total}"),
        Err(_) => println!(rt; "there is no total"),
    }
}

fn main(rt: HostRuntime) -> io::Result<()> {
    let mut values = [0, 0, 0, 0, 0, 900];
    let scheduler = Scheduler::open(InPlace::open(&mut values), WritersPassReaders);
    play(&rt, scheduler)
}

//! Serves the request file on standard input over a store that is written in place, and writes the answers to standard
//! output.
#![tactic(auto)]

use reading::input::read_input;
use server::pairs::serve_in_place;
use std::io;
use std::io::Write;

// The two servers are programs of their own, and say only which server they are.
fn main(rt: HostRuntime) -> io::Result<()> {
    let input = read_input(rt.alloc(), rt.stdin())?;
    let output = serve_in_place(rt.alloc(), &input)?;
    rt.stdout().write_all(&output)
}

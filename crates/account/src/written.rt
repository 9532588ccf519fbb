// The records that a server wrote, in words.
use records::read::read_answer;
use std::io;

pub(crate) fn print_records(rt: &impl Print, written: &[u8]) -> io::Result<()> {
    let mut rest = written;
    // A loop and no iterator, as in the reading of requests.
    while !rest.is_empty() {
        match read_answer(rest) {
            Ok((answer, behind)) => {
                println!(rt; "{answer}")?;
                rest = behind;
            }
            Err(refusal) => {
                let place = written.len() - rest.len();
                return println!(rt;
                    "{} at place {place}: nothing from there on is read",
                    refusal.reason
                );
            }
        }
    }
    Ok(())
}

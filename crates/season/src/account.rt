// The lines that are printed.
use std::{fmt, io};

/// Prints lines. Tickets cannot be let go, so the first error of printing is kept until nobody has one.
pub(crate) struct Account<'a, P> {
    rt: &'a P,
    printed: io::Result<()>,
}

impl<'a, P: Print> Account<'a, P> {
    pub(crate) fn new(rt: &'a P) -> Account<'a, P> {
        Account {
            rt,
            printed: Ok(()),
        }
    }

    pub(crate) fn line(&mut self, line: impl fmt::Display + Drop) {
        let printed = println!(self.rt; "{line}");
        if self.printed.is_ok() {
            self.printed = printed;
        }
    }

    pub(crate) fn close(self) -> io::Result<()> {
        let Account { rt: _, printed } = self;
        printed
    }
}

// What is asked of one transaction.
use crate::transaction::Ask;

#[derive(Clone, Copy)]
pub enum Call {
    Try(Ask),
    Retry,
    Abort,
}

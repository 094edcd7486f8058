// Printing: what the arithmetic answers.
use std::fmt;

// The value, or the refusal's number.
#[derive(Drop)]
pub(crate) struct Told(pub Option<u32>);

impl fmt::Display for Told {
    fn fmt<W: fmt::Write>(&self, f: &mut fmt::Formatter<W>) -> fmt::Result {
        match self.0 {
            Some(n) => write!(f, "{n}"),
            None => write!(f, "refused -22"),
        }
    }
}

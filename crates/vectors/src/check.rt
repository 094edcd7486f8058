// Answers beside the stored ones.
use types::answer::{NotOpened, Refusal};

// Something is not as stored.
#[derive(Clone, Copy)]
pub(crate) struct Wrong;

impl From<Refusal> for Wrong {
    fn from(_refusal: Refusal) -> Wrong {
        Wrong
    }
}

impl From<NotOpened> for Wrong {
    fn from(_refusal: NotOpened) -> Wrong {
        Wrong
    }
}

pub(crate) fn check(right: bool) -> Result<(), Wrong> {
    if right { Ok(()) } else { Err(Wrong) }
}

// A stored answer: a value beside the number 0, or the number of a refusal.
pub(crate) fn stored<T: Drop>(number: u32, value: T) -> Result<T, i32> {
    match number.cast_signed() {
        0 => Ok(value),
        refused => Err(refused),
    }
}

use std::alloc::{AllocError, AllocFailed};

/// Memory could not be had. A call that answers this says in its contract what it leaves.
#[derive(Clone, Copy, Debug, PartialEq, Eq)]
pub struct NoMemory;

impl From<AllocError> for NoMemory {
    fn from(_error: AllocError) -> NoMemory {
        NoMemory
    }
}

impl<T: Drop> From<AllocFailed<T>> for NoMemory {
    fn from(_error: AllocFailed<T>) -> NoMemory {
        NoMemory
    }
}

/// The value of a result; where it is an error, the values kept so far are let go and the function answers the error.
///
/// It is `?` with the values named that `?` would let go by itself. Their drop is then a call in place of code written
/// out at each way out of the function, which makes proofs over large values many times shorter.
#[macro_export]
macro_rules! or_drop {
    ($result:expr; $($kept:expr),+) => {
        match $result {
            Ok(value) => value,
            Err(error) => {
                $(drop($kept);)+
                return Err(From::from(error));
            }
        }
    };
}

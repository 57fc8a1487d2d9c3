//! Why a case gives no answer.

use hex::FromHexError;
use ovsdb_values::NotationFault;
use std::alloc::{AllocError, AllocFailed};
use std::str::Utf8Error;
use vtep_base::{OutOfMemory, TextFault};
use vtep_rows::{RowFault, RowsFault};

/// Why a case gives no answer.
#[derive(Clone, Copy, Debug, PartialEq, Eq)]
pub enum CaseFault {
    OutOfMemory,
    /// A line is none of its table, or a word of it is not of its form.
    Form,
}

impl From<OutOfMemory> for CaseFault {
    fn from(_error: OutOfMemory) -> CaseFault {
        CaseFault::OutOfMemory
    }
}

impl From<AllocError> for CaseFault {
    fn from(_error: AllocError) -> CaseFault {
        CaseFault::OutOfMemory
    }
}

impl<T: Drop> From<AllocFailed<T>> for CaseFault {
    fn from(_error: AllocFailed<T>) -> CaseFault {
        CaseFault::OutOfMemory
    }
}

impl From<Utf8Error> for CaseFault {
    fn from(_error: Utf8Error) -> CaseFault {
        CaseFault::Form
    }
}

impl From<TextFault> for CaseFault {
    fn from(_error: TextFault) -> CaseFault {
        CaseFault::Form
    }
}

impl From<serde_json::Error> for CaseFault {
    fn from(_error: serde_json::Error) -> CaseFault {
        CaseFault::Form
    }
}

impl From<FromHexError> for CaseFault {
    fn from(error: FromHexError) -> CaseFault {
        match error {
            FromHexError::OutOfMemory => CaseFault::OutOfMemory,
            _ => CaseFault::Form,
        }
    }
}

impl From<RowFault> for CaseFault {
    fn from(fault: RowFault) -> CaseFault {
        match fault {
            RowFault::OutOfMemory => CaseFault::OutOfMemory,
            RowFault::Values => CaseFault::Form,
        }
    }
}

impl From<RowsFault> for CaseFault {
    fn from(fault: RowsFault) -> CaseFault {
        match fault {
            RowsFault::OutOfMemory => CaseFault::OutOfMemory,
            RowsFault::Spent => CaseFault::Form,
        }
    }
}

impl From<NotationFault> for CaseFault {
    fn from(fault: NotationFault) -> CaseFault {
        match fault {
            NotationFault::OutOfMemory => CaseFault::OutOfMemory,
            NotationFault::Notation | NotationFault::Repeated => CaseFault::Form,
        }
    }
}

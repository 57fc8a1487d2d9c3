//! Words of refusal.

ghost use Rattle.std.specs.Prelude.{◌≡◌};
ghost use Rattle.vtep_base.specs.Refusals.{word_text};

/// Why an operation, a commit or a request is refused.
#[derive(Clone, Copy, Debug, PartialEq, Eq)]
pub enum Word {
    /// A member is missing or has a wrong type or notation.
    SyntaxError,
    /// What is asked for is known and not offered.
    NotSupported,
    UnknownTable,
    UnknownColumn,
    /// Sessions don't write the column or the table.
    PermissionError,
    /// An earlier insertion has the name.
    DuplicateUuidName,
    /// No insertion has the name.
    UnknownUuidName,
    /// A value, a number of rows or a key is out of its bounds.
    ConstraintViolation,
    /// A division by zero.
    DomainError,
    /// A number beyond 64 bits.
    RangeError,
    /// What was waited for does not hold.
    TimedOut,
    /// The transaction asked for it.
    Aborted,
    /// A row names a row that is not there.
    ReferentialIntegrityViolation,
    UnknownDatabase,
    /// The session has a monitor of this name.
    DuplicateMonitor,
    /// The session has all the monitors that it may have.
    ResourcesExhausted,
    /// The session has no monitor of this name.
    UnknownMonitor,
    UnknownMethod,
}

impl Word {
    /// The word as it stands in replies.
    pub fn text(self) -> &'static str
        ensures { result.now ≡ word_text self }
    {
        match self {
            Word::SyntaxError => "syntax error",
            Word::NotSupported => "not supported",
            Word::UnknownTable => "unknown table",
            Word::UnknownColumn => "unknown column",
            Word::PermissionError => "permission error",
            Word::DuplicateUuidName => "duplicate uuid-name",
            Word::UnknownUuidName => "unknown uuid-name",
            Word::ConstraintViolation => "constraint violation",
            Word::DomainError => "domain error",
            Word::RangeError => "range error",
            Word::TimedOut => "timed out",
            Word::Aborted => "aborted",
            Word::ReferentialIntegrityViolation => "referential integrity violation",
            Word::UnknownDatabase => "unknown database",
            Word::DuplicateMonitor => "duplicate monitor",
            Word::ResourcesExhausted => "resources exhausted",
            Word::UnknownMonitor => "unknown monitor",
            Word::UnknownMethod => "unknown method",
        }
    }
}

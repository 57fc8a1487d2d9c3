//! Operations as they are read.

use ovsdb_values::Datum;
use vtep_base::{List, Txt, Word};
use vtep_schema::{Column, Table};

/// A column, or the identifier of the row.
#[derive(Clone, Copy, Debug, PartialEq, Eq)]
pub enum Field {
    /// `_uuid`.
    Id,
    /// A column.
    Of(Column),
}

/// How a condition compares the column with its value (RFC 7047, section 5.1, `<function>`).
#[derive(Clone, Copy, Debug, PartialEq, Eq)]
pub enum Function {
    /// `==`: it is the value.
    Equal,
    /// `!=`: it is not the value.
    Unequal,
    /// `<`: its number is less than that of the value.
    Less,
    /// `<=`: its number is at most that of the value.
    AtMost,
    /// `>=`: its number is at least that of the value.
    AtLeast,
    /// `>`: its number is more than that of the value.
    More,
    /// `includes`: every atom or pair of the value is in the column.
    Includes,
    /// `excludes`: no atom and no pair of the value is in the column.
    Excludes,
}

/// How a mutation changes the column by its value (RFC 7047, section 5.1, `<mutator>`).
#[derive(Clone, Copy, Debug, PartialEq, Eq)]
pub enum Mutator {
    /// `+=`, on each number of the column, as the next four.
    Add,
    /// `-=`, the value from the column.
    Subtract,
    /// `*=`.
    Multiply,
    /// `/=`, the column by the value, towards zero.
    Divide,
    /// `%=`, with the sign of the dividend.
    Remainder,
    /// `insert`: the atoms of the value, or the pairs of the value whose keys are not there, are put in.
    Insert,
    /// `delete`: the atoms or pairs of the value, or the pairs with these keys, are taken out.
    Delete,
}

/// What a wait asks of the matched rows and of those that it gives (RFC 7047, section 5.2.6, `until`).
#[derive(Clone, Copy, Debug, PartialEq, Eq)]
pub enum Until {
    /// `==`: they are the same set.
    Same,
    /// `!=`: they are not.
    Different,
}

/// One element of the member `where` (RFC 7047, section 5.1, `<condition>`).
#[derive(Drop)]
pub struct Condition {
    /// What is compared.
    pub field: Field,
    /// How it is compared.
    pub function: Function,
    /// What it is compared with.
    pub value: Datum,
}

/// One element of the member `mutations` (RFC 7047, section 5.1, `<mutation>`).
#[derive(Drop)]
pub struct Mutation {
    /// What is changed.
    pub column: Column,
    /// How it is changed.
    pub mutator: Mutator,
    /// By what it is changed.
    pub value: Datum,
}

/// An operation (RFC 7047, section 5.2). A name in a value stands for a row that the transaction inserts.
#[derive(Drop)]
pub enum Op {
    /// Makes a row of the table; a column that is not given has its default (section 5.2.1).
    Insert {
        table: Table,
        row: List<(Column, Datum)>,
        /// The member `uuid-name`.
        name: Option<Txt>,
    },
    /// Gives the rows that meet the conditions, cut to the columns (section 5.2.2).
    Select {
        table: Table,
        conditions: List<Condition>,
        /// None stands for `_uuid` and all columns.
        columns: Option<List<Field>>,
    },
    /// Writes the values into each row that meets the conditions (section 5.2.3).
    Update {
        table: Table,
        conditions: List<Condition>,
        row: List<(Column, Datum)>,
    },
    /// Does the mutations in order in each such row (section 5.2.4).
    Mutate {
        table: Table,
        conditions: List<Condition>,
        mutations: List<Mutation>,
    },
    /// Removes each such row (section 5.2.5).
    Delete {
        table: Table,
        conditions: List<Condition>,
    },
    /// Goes by where such rows, cut to the columns, are those that are given, or where they are not (section 5.2.6). It never
    /// waits: a timeout is not kept.
    Wait {
        table: Table,
        conditions: List<Condition>,
        /// None stands for all columns.
        columns: Option<List<Field>>,
        until: Until,
        rows: List<List<(Field, Datum)>>,
    },
    /// Does nothing; it fails where it is durable (section 5.2.7).
    Commit {
        durable: bool,
    },
    /// Fails (section 5.2.8).
    Abort,
    /// Does nothing (section 5.2.9).
    Comment,
}

/// Why an operation can't be read.
#[derive(Clone, Copy, Debug, PartialEq, Eq)]
pub struct OpFault {
    /// The place of the operation among the elements of the params after the first, from 0.
    pub index: u64,
    /// Its first fault.
    pub word: Word,
}

/// The operations of a transaction.
#[derive(Drop)]
pub struct Ops {
    /// The operations before the first one that can't be read.
    pub ops: List<Op>,
    /// The names of the insertions whose rows names may stand for, in their order.
    pub names: List<Option<Txt>>,
    /// The first operation that can't be read.
    pub fault: Option<OpFault>,
    /// The number of all operations, those behind the fault too.
    pub count: u64,
}

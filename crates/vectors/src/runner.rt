//! What the cases of a table are run on.

use crate::bindings::Bindings;
use crate::faults::CaseFault;
use crate::mirrors::Mirrors;
use crate::scripts::Scripts;
use crate::sessions::Sessions;
use crate::transactions::Transactions;
use crate::{
    acls, frames, header_fields, learning, locators, messages, packets, rows, schemas, texts,
    values,
};
use std::alloc::Global;
use vtep_base::Bytes;

/// What the cases of a table are run on.
#[derive(Drop)]
pub enum Runner {
    /// No table is begun.
    Nothing,
    Transactions(Transactions),
    Gateway(Sessions),
    Scripts(Scripts),
    Mirrors(Mirrors),
    Bindings(Bindings),
    Frames,
    Headers,
    Acls,
    Learning,
    Locators,
    Packets,
    Values,
    Texts,
    Messages,
    Rows,
    Schema,
}

impl Runner {
    /// The runner of the table of this name.
    pub fn named(alloc: Global, name: &str) -> Result<Runner, CaseFault> {
        Ok(match name {
            "transactions" | "facts" => Runner::Transactions(Transactions::new(alloc)?),
            "gateway" => Runner::Gateway(Sessions::new(alloc)?),
            "scripts" => Runner::Scripts(Scripts::new(alloc)),
            "mirrors" => Runner::Mirrors(Mirrors::new(alloc)),
            "bindings" => Runner::Bindings(Bindings::new(alloc)),
            "frames" => Runner::Frames,
            "headers" => Runner::Headers,
            "acls" => Runner::Acls,
            "learning" => Runner::Learning,
            "locators" => Runner::Locators,
            "packets" => Runner::Packets,
            "values" => Runner::Values,
            "texts" => Runner::Texts,
            "messages" => Runner::Messages,
            "rows" => Runner::Rows,
            "schema" => Runner::Schema,
            _ => return Err(CaseFault::Form),
        })
    }

    /// Adds what the lines of a case give.
    pub fn answer(
        &mut self,
        alloc: Global,
        asked: &[Bytes],
        answer: &mut Bytes,
    ) -> Result<(), CaseFault> {
        match self {
            Runner::Nothing => Err(CaseFault::Form),
            Runner::Transactions(transactions) => transactions.answer(alloc, asked, answer),
            Runner::Gateway(sessions) => sessions.answer(alloc, asked, answer),
            Runner::Scripts(scripts) => scripts.answer(alloc, asked, answer),
            Runner::Mirrors(mirrors) => mirrors.answer(alloc, asked, answer),
            Runner::Bindings(bindings) => bindings.answer(alloc, asked, answer),
            Runner::Frames => frames::answer(alloc, asked, answer),
            Runner::Headers => header_fields::answer(alloc, asked, answer),
            Runner::Acls => acls::answer(alloc, asked, answer),
            Runner::Learning => learning::answer(alloc, asked, answer),
            Runner::Locators => locators::answer(alloc, asked, answer),
            Runner::Packets => packets::answer(alloc, asked, answer),
            Runner::Values => values::answer(alloc, asked, answer),
            Runner::Texts => texts::answer(alloc, asked, answer),
            Runner::Messages => messages::answer(alloc, asked, answer),
            Runner::Rows => rows::answer(alloc, asked, answer),
            Runner::Schema => schemas::answer(alloc, asked, answer),
        }
    }
}

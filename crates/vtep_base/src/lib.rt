//! Names, numbers, lists and the outside, of which every layer speaks.
#![tactic(auto)]

mod adapters;
mod addresses;
mod answers;
mod bindings;
mod laws;
mod lists;
mod memory;
mod names;
mod numbers;
mod ordered;
mod outside;
mod reading;
mod room;
mod shapes;
mod steps;
mod tally;
mod words;

pub use adapters::{ReadSource, WriteSink};
pub use addresses::Mac;
pub use answers::{LineReason, Mode, OutOfMemory, RowId, Status};
pub use bindings::{Binding, Inner};
pub use laws::{printed_is_read, read_is_printed};
pub use lists::{Bytes, List, Txt};
pub use memory::{MemorySink, MemorySource};
pub use names::Name;
pub use numbers::{Ipv4, Vlan, Vni, parse_number};
pub use ordered::{Ordered, Walk};
pub use outside::{Put, Sink, Source, Took};
pub use reading::TextFault;
pub use room::RoomyBytes;
pub use shapes::{Action, Direction, Kind, Shape};
pub use steps::{Counted, Ledger, Plain, Steps};
pub use words::Word;

//! What a rehearsal came to.

use ct_model::Step;
use ct_names::Message;
use ct_table::Table;

/// What a rehearsal came to at one of its members.
#[derive(Clone, Copy, Debug)]
pub struct Outcome<'a> {
    /// The steps of the rehearsal, in order.
    pub record: &'a [Step],
    /// The messages that the member delivered, in order.
    pub delivered: &'a [Message],
    /// The registers after the commands of these messages.
    pub table: &'a Table,
}

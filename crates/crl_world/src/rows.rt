//! The rows in which the choices of a turn are counted.

/// First the next statements and the answers, by node; then the messages in the inboxes, by node and place; then those
/// in the outboxes.
#[derive(Clone, Copy)]
pub(crate) enum Rows {
    Nexts,
    Inboxes,
    Outboxes,
}

//! The turns and their passes.
ghost use Rattle.std.specs.Prelude.{◌≡◌, ◌+◌, ◌≤◌, ◌^◌, [], ◌∷◌, length};
ghost use Rattle.crl_turns.specs.Plays.{only_view};

use crate::plays::ByTurns;
use crate::turned::{Shape, Turned};
use crate::view::View;
use atomic_table::{Badge, Table};
use std::alloc::Global;

/// 1 to 64 values, each behind a turn, and the number of events of their history.
#[derive(Drop)]
pub struct Turns<V: Turned> {
    pub(crate) table: Table<Option<V>, View, Shape, ByTurns<V>, Global>,
    ghost sized: { (table.shared.table_id.words ≡ table.shared.table_id.slots + 1) × (table.shared.table_id.slots ≤ 64) },
}

/// What a thread makes its calls with. It has no bytes, and in contracts a view: a front, which is a
/// beginning of the history, the turns that it holds, and what it did (`view_of`).
///
/// A pass that is dropped keeps its turns out for ever.
#[derive(Drop)]
pub struct Pass {
    pub(crate) badge: Badge<View>,
    ghost one: { badge.views ≡ only_view badge.views ∷ [] },
    ghost rests: { ((only_view badge.views).known ≡ (only_view badge.views).front) × (length (only_view badge.views).front ≤ 2 ^ 62) },
}

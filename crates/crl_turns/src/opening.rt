//! New turns.
ghost use Rattle.std.specs.Prelude.{◌≡◌, ℕ, ◌+◌, ◌<◌, ◌≤◌, [], slice_get, Some, IfOk, map, replicate, vec_len};
ghost use Rattle.crl_turns.specs.declared.turned.Shape.{Shape};
ghost use Rattle.crl_turns.specs.Rule.{StandsFor};
ghost use Rattle.crl_turns.specs.Plays.{blank_view};
ghost use Rattle.crl_turns.specs.Passes.{view_of, part_count, common_shape, IsOf};

use crate::OutOfMemory;
use crate::plays::ByTurns;
use crate::turned::{Shape, Turned};
use crate::turns::{Pass, Turns};
use crate::view::View;
use atomic_table::Table;
use std::alloc::Global;

// One word for the count and one for each turn.
fn zeros(alloc: Global, count: usize) -> Result<Vec<u64>, OutOfMemory>
    ensures { IfOk result (λ v. v.items ≡ replicate count 0) }
{
    vec![in alloc; 0; count]
}

fn filled<V: Drop>(alloc: Global, values: Vec<V>) -> Result<Vec<Option<V>>, OutOfMemory>
    ensures { IfOk result (λ v. v.items ≡ map Some values.items) }
{
    values.into_iter().map(|value| Some(value)).collect(alloc)
}

impl<V: Turned + Drop> Turns<V> {
    /// The values, each behind a turn, and the first pass. The history has no events yet.
    ///
    /// # Errors
    ///
    /// `OutOfMemory`. The values are then dropped.
    pub fn new(alloc: Global, values: Vec<V>) -> Result<(Turns<V>, Pass), OutOfMemory>
        requires count { (0 < vec_len values) × (vec_len values ≤ 64) }
        requires stand { (part : ℕ) (value first : V) → slice_get values.items part ≡ Some value → slice_get values.items 0 ≡ Some first
            → StandsFor V.shape V.stands (V.shape first) part [] value }
        ensures parts { IfOk result (λ made. part_count made.0 ≡ vec_len values) }
        ensures shape { IfOk result (λ made. (first : V) → slice_get values.items 0 ≡ Some first → common_shape made.0 ≡ V.shape first) }
        ensures pass { IfOk result (λ made. IsOf made.0 made.1 × (view_of made.1 ≡ blank_view)) }
    {
        let shape = values[0].shape();
        let words = zeros(alloc, values.len() + 1)?;
        let slots = filled(alloc, values)?;
        match Table::<Option<V>, View, Shape, ByTurns<V>, Global>::new(
            alloc,
            words.as_slice(),
            slots,
            &shape,
        ) {
            Ok((table, seat)) => Ok((
                Turns { table },
                Pass {
                    badge: seat.into_badge(),
                },
            )),
            Err(_) => Err(OutOfMemory),
        }
    }
}

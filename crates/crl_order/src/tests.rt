//! Tests: each order gives its words.
ghost use Rattle.std.specs.Prelude.{◌≡◌};

use crate::Order;
use crl_model::OutOfMemory;

/// As many choices as there are words of 32 bits.
const ALL: u128 = 4_294_967_296;

#[test]
fn the_first_is_always_taken(rt: HostRuntime) {
    let mut order = Order::First;
    assert_eq!(rt; order.next(7), 0);
    assert_eq!(rt; order.next(1), 0);
}

#[test]
fn a_list_is_followed_by_zeros(rt: HostRuntime) -> Result<(), OutOfMemory> {
    let mut order = Order::picks(rt.alloc(), &[5, 4_294_967_295])?;
    assert_eq!(rt; order.next(3), 2);
    assert_eq!(rt; order.next(ALL), 4_294_967_295);
    assert_eq!(rt; order.next(9), 0);
    assert_eq!(rt; order.next(9), 0);
    Ok(())
}

#[test]
fn a_seed_gives_its_words(rt: HostRuntime) {
    let mut order = Order::seed(42);
    assert_eq!(rt; order.next(ALL), 3_400_036_912);
    assert_eq!(rt; order.next(ALL), 3_349_765_444);
    assert_eq!(rt; order.next(1_000), 382);
}

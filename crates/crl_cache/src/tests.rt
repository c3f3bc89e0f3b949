//! Tests: regions are kept, pushed out and taken back.
ghost use Rattle.std.specs.Prelude.{◌≡◌};

use crate::Cache;
use crl_model::OutOfMemory;
use crl_model::mapping::Cached;
use crl_model::name::Name;
use std::alloc::Global;

fn region(serial: u32) -> Cached {
    Cached {
        name: Name::new(1, serial),
        size: 8 * (serial % 1_000),
    }
}

/// A cache that kept the regions with these serials.
fn filled(alloc: Global, capacity: u16, serials: &[u32]) -> Result<Cache, OutOfMemory> {
    let mut cache = Cache::new(alloc, capacity)?;
    for serial in serials {
        let _ = cache.keep(region(*serial));
    }
    Ok(cache)
}

#[test]
fn the_oldest_is_pushed_out(rt: HostRuntime) -> Result<(), OutOfMemory> {
    let mut cache = filled(rt.alloc(), 2, &[1, 2])?;
    let evicted = cache.keep(region(3));
    assert!(rt; evicted == Some(Name::new(1, 1)));
    assert_eq!(rt; cache.list().len(), 2);
    assert!(rt; cache.size_of(Name::new(1, 1)) == None);
    assert!(rt; cache.take_back(Name::new(1, 2)) == Some(16));
    assert!(rt; cache.drop_name(Name::new(1, 3)));
    assert!(rt; !cache.drop_name(Name::new(1, 3)));
    assert_eq!(rt; cache.list().len(), 0);
    Ok(())
}

#[test]
fn no_capacity_keeps_nothing(rt: HostRuntime) -> Result<(), OutOfMemory> {
    let mut cache = filled(rt.alloc(), 0, &[1])?;
    let evicted = cache.keep(region(2));
    assert!(rt; evicted == Some(Name::new(1, 2)));
    assert_eq!(rt; cache.list().len(), 0);
    Ok(())
}

//! A list of regions of bounded length, the oldest first.
ghost use Rattle.std.specs.Prelude.{◌≡◌, ◌≤◌, ◌<◌, [], Some, None, IsSome, IsTrue, IfOk, MatchOption, ◌↔◌, length, drop, take};
ghost use Rattle.crl_protocol.specs.Lifetimes.{cached_size, cache_without, cache_with};
ghost use Rattle.crl_cache.specs.KeptPlaces.{StandsAt, StandsNowhere};

use crl_model::OutOfMemory;
use crl_model::mapping::Cached;
use crl_model::name::Name;
use std::alloc::Global;
use std::marker::Model;

/// Regions, the oldest first, at most `capacity` of them. A contract sees it as a `CacheState`. Only `new`
/// takes memory. Finding a name looks at each region once.
#[derive(Drop)]
pub struct Cache {
    capacity: u16,
    list: Vec<Cached>,
}

impl Model for Cache {
    ghost use Rattle.std.specs.Prelude.{◌≤◌, length, vec_capacity};
    ghost use Rattle.crl_cache.specs.CacheState.{CacheState};

    ghost Value = { CacheState };

    ghost view = { λ c. record { capacity = c.capacity; list = c.list.items } };

    ghost invariant = { λ c. (length c.list.items ≤ c.capacity) × (c.capacity ≤ vec_capacity c.list) };
}

impl Cache {
    /// A cache of this capacity that keeps nothing.
    ///
    /// # Errors
    ///
    /// `OutOfMemory`.
    pub fn new(alloc: Global, capacity: u16) -> Result<Cache, OutOfMemory>
        ensures { IfOk result (λ cache. cache ≡ record { capacity = capacity; list = [] }) }
    {
        let list = Vec::with_capacity(alloc, capacity as usize)?;
        Ok(Cache { capacity, list })
    }

    /// The regions.
    pub fn list(&self) -> &[Cached]
        ensures value { result.now ≡ self.now.list }
        ensures bound { length self.now.list ≤ self.now.capacity }
    {
        self.list.as_slice()
    }

    /// The size of the region, if it is kept.
    pub fn size_of(&self, name: Name) -> Option<u32>
        ensures { result ≡ cached_size name self.now.list }
    {
        match place_of(self.list.as_slice(), name) {
            Some(place) => Some(self.list[place].size),
            None => None,
        }
    }

    /// Keeps one region more. Answers the name that is given up: the oldest if the cache was full, the
    /// region itself if the capacity is 0.
    #[tactic(auto, unfolding(crl_protocol::specs::Lifetimes::cache_with))]
    pub fn keep(&mut self, region: Cached) -> Option<Name>
        ensures list { self.new ≡ record self.old { list = (cache_with self.old.capacity region self.old.list).cache } }
        ensures evicted { result ≡ (cache_with self.old.capacity region self.old.list).evicted }
    {
        if self.capacity == 0 {
            return Some(region.name);
        }
        if self.list.len() < self.capacity as usize {
            self.list.push_reserved(region);
            return None;
        }
        let oldest = self.list.remove(0);
        self.list.push_reserved(region);
        Some(oldest.name)
    }

    /// The name that `keep` gives up for this region.
    #[tactic(auto, unfolding(crl_protocol::specs::Lifetimes::cache_with))]
    pub fn evicted_by(&self, region: Cached) -> Option<Name>
        ensures { result ≡ (cache_with self.now.capacity region self.now.list).evicted }
    {
        if self.list.len() < self.capacity as usize {
            return None;
        }
        if self.list.is_empty() {
            return Some(region.name);
        }
        Some(self.list[0].name)
    }

    /// Takes the region out, and answers its size. None exactly if it isn't kept.
    pub fn take_back(&mut self, name: Name) -> Option<u32>
        ensures list { self.new ≡ record self.old { list = cache_without name self.old.list } }
        ensures size { result ≡ cached_size name self.old.list }
    {
        match place_of(self.list.as_slice(), name) {
            Some(place) => Some(self.list.remove(place).size),
            None => None,
        }
    }

    /// Takes the region out. True exactly if it was kept.
    pub fn drop_name(&mut self, name: Name) -> bool
        ensures list { self.new ≡ record self.old { list = cache_without name self.old.list } }
        ensures kept { IsTrue result ↔ IsSome (cached_size name self.old.list) }
    {
        self.take_back(name).is_some()
    }
}

/// The place of the name, if it is there.
fn place_of(list: &[Cached], name: Name) -> Option<usize>
    ensures { MatchOption result (StandsNowhere name list.now) (StandsAt name list.now) }
{
    for place in 0..list.len() {
        if list[place].name == name {
            return Some(place);
        }
    }
    None
}

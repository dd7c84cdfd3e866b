// What lies behind the turn, and what is fixed of it.
use crate::entry::Entry;
use contract_tokens::Log;
use frame_pool::Pool;
use std::alloc::Global;
use std::hash::Hash;
use std::sync::Arc;

/// The pool with the log of its grants.
#[derive(Drop)]
pub struct Shared<K: Copy + Eq + Hash, T: Drop> {
    pub pool: Pool<K, Arc<T, Global>>,
    pub log: Log<Entry<K>>,
}

/// What is stated when a pool is made: the number of its frames and of its passes, and what its rule knows. Contracts
/// alone see it; no value of it is made.
pub struct PoolTag<G> {
    pub frames: usize,
    pub passes: usize,
    pub own: G,
}

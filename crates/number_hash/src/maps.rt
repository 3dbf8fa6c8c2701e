//! Maps whose keys are numbers, or are made of numbers.
use crate::hasher::NumberHasher;
use std::collections::HashMap;
use std::hash::BuildHasherDefault;

/// What makes the hashers of a map or a set: `HashMap::with_hasher(alloc, NumberHash::new())`.
pub type NumberHash = BuildHasherDefault<NumberHasher>;

/// A map by numbers, lists of numbers, or structs of numbers.
pub type NumberMap<K, V> = HashMap<K, V, NumberHash>;

//! Maps with text keys.

ghost use Rattle.std.specs.Prelude.{ℕ, List, [], Some, codes};
ghost use Rattle.dagcbor_read.specs.Parts.{IfRefused, RefusesFieldsAs, RefusesToKeep};
ghost use Rattle.dagcbor_read.specs.Collections.{map_of, values_of, in_key_order, held_pairs};

use crate::access::accessor::Accessor;
use crate::access::fields::{Fields, read_fields};
use crate::deserialize::{Deserialize, DeserializeOwned};
use crate::deserializer::Deserializer;
use crate::shown::Shown;
use dagcbor_core::DecodeError;
use dagcbor_heads::{Read, ReadResult};
use std::alloc::Global;
use std::collections::{BTreeMap, HashMap};

impl<V: Shown> Shown for BTreeMap<String, V> {
    ghost View = { List (List ℕ × V.View) };

    ghost meaning = { λ m. in_key_order (held_pairs V.meaning m.entries) };

    ghost shape = { map_of V.shape };
}

/// Each value goes to its key.
impl<'de, V: Deserialize<'de>> Fields<'de> for BTreeMap<String, V> {
    type Places = BTreeMap<String, V>;

    ghost State = { List (List ℕ × V.View) };

    ghost state = { λ m. in_key_order (held_pairs V.meaning m.entries) };

    ghost unread = { [] };

    ghost shape = { λ names. values_of V.shape };

    ghost View = { List (List ℕ × V.View) };

    ghost meaning = { λ m. in_key_order (held_pairs V.meaning m.entries) };

    ghost finish = { Some };

    ghost refuses = { RefusesToKeep V.answers };

    fn unread(alloc: Global) -> BTreeMap<String, V> {
        BTreeMap::new(alloc)
    }

    fn read_field<R: Read>(
        places: &mut BTreeMap<String, V>,
        alloc: Global,
        _names: &[&str],
        key: &str,
        de: &mut Deserializer<'de, R>,
    ) -> ReadResult<(), R> {
        let value = V::deserialize(alloc, de)?;
        let Ok(name) = String::from_str(alloc, key) else {
            return Err(DecodeError::OutOfMemory);
        };
        match places.insert(name, value) {
            Ok(_) => Ok(()),
            Err(_) => Err(DecodeError::OutOfMemory),
        }
    }

    fn read_named<R: Read>(
        _places: &mut BTreeMap<String, V>,
        _alloc: Global,
        _names: &[&str],
        _entries: &mut Accessor<'de>,
        _de: &mut Deserializer<'de, R>,
        _refusal: &mut Option<DecodeError<R::Error>>,
    ) -> bool {
        false
    }

    fn finish(places: BTreeMap<String, V>) -> Option<BTreeMap<String, V>> {
        Some(places)
    }
}

impl<'de, V: Deserialize<'de>> Deserialize<'de> for BTreeMap<String, V> {
    ghost answers = { IfRefused (RefusesFieldsAs (RefusesToKeep V.answers) (codes "map")) };

    fn deserialize<R: Read>(alloc: Global, de: &mut Deserializer<'de, R>) -> ReadResult<Self, R> {
        read_fields::<BTreeMap<String, V>, R>(alloc, de)
    }
}

impl<'de, V: DeserializeOwned<'de>> DeserializeOwned<'de> for BTreeMap<String, V> {
    ghost owned = { V.owned };
}

impl<V: Shown> Shown for HashMap<String, V> {
    ghost View = { List (List ℕ × V.View) };

    ghost meaning = { λ m. in_key_order (held_pairs V.meaning m.entries) };

    ghost shape = { map_of V.shape };
}

/// Each value goes to its key.
impl<'de, V: Deserialize<'de>> Fields<'de> for HashMap<String, V> {
    type Places = HashMap<String, V>;

    ghost State = { List (List ℕ × V.View) };

    ghost state = { λ m. in_key_order (held_pairs V.meaning m.entries) };

    ghost unread = { [] };

    ghost shape = { λ names. values_of V.shape };

    ghost View = { List (List ℕ × V.View) };

    ghost meaning = { λ m. in_key_order (held_pairs V.meaning m.entries) };

    ghost finish = { Some };

    ghost refuses = { RefusesToKeep V.answers };

    fn unread(alloc: Global) -> HashMap<String, V> {
        HashMap::new(alloc)
    }

    fn read_field<R: Read>(
        places: &mut HashMap<String, V>,
        alloc: Global,
        _names: &[&str],
        key: &str,
        de: &mut Deserializer<'de, R>,
    ) -> ReadResult<(), R> {
        let value = V::deserialize(alloc, de)?;
        let Ok(name) = String::from_str(alloc, key) else {
            return Err(DecodeError::OutOfMemory);
        };
        match places.insert(name, value) {
            Ok(_) => Ok(()),
            Err(_) => Err(DecodeError::OutOfMemory),
        }
    }

    fn read_named<R: Read>(
        _places: &mut HashMap<String, V>,
        _alloc: Global,
        _names: &[&str],
        _entries: &mut Accessor<'de>,
        _de: &mut Deserializer<'de, R>,
        _refusal: &mut Option<DecodeError<R::Error>>,
    ) -> bool {
        false
    }

    fn finish(places: HashMap<String, V>) -> Option<HashMap<String, V>> {
        Some(places)
    }
}

/// For untrusted bytes, read a `BTreeMap`. The hasher's seed is fixed, so anyone can find keys
/// whose hashes collide. With n such keys, reading takes time in proportion to the square of n.
impl<'de, V: Deserialize<'de>> Deserialize<'de> for HashMap<String, V> {
    ghost answers = { IfRefused (RefusesFieldsAs (RefusesToKeep V.answers) (codes "map")) };

    fn deserialize<R: Read>(alloc: Global, de: &mut Deserializer<'de, R>) -> ReadResult<Self, R> {
        read_fields::<HashMap<String, V>, R>(alloc, de)
    }
}

impl<'de, V: DeserializeOwned<'de>> DeserializeOwned<'de> for HashMap<String, V> {
    ghost owned = { V.owned };
}

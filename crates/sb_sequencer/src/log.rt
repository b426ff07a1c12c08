//! The log: the keys of its calls and the calls themselves, in two arrays side by side.
ghost use Rattle.std.specs.Prelude.{◌≡◌, ◌<◌, [], ◌∷◌, ◌++◌, Some, None, length, slice_get, option_copied, IfOk, IfSome, OnOk, OnErr};
ghost use Rattle.std.specs.Option.{option_map};
ghost use Rattle.sb_sequencer.specs.Numbering.{calls_of, index_of_key};

use crate::key_hasher::KeyHasher;
use indexmap::IndexSet;
use sb_calls::{Call, Key};
use std::alloc::{AllocError, Global};
use std::hash::BuildHasherDefault;
use std::marker::Model;
use std::slice;

/// The log: the calls in order, and the number of each key.
#[derive(Drop)]
pub(crate) struct Log {
    // The key of each call, at the call's index. A search for a key reads no call.
    keys: IndexSet<Key, BuildHasherDefault<KeyHasher>>,
    calls: Vec<Call>,
}

impl Model for Log {
    ghost use Rattle.std.specs.Prelude.{◌≡◌, List, length};
    ghost use Rattle.std.specs.List.{zip};
    ghost use Rattle.sb_calls.specs.declared.ask.Key.{Key as AnyKey};
    ghost use Rattle.sb_calls.specs.declared.call.Call.{Call as AnyCall};

    ghost Value = { List (AnyKey × AnyCall) };

    ghost view = { λ s. zip s.keys.keys s.calls.items };

    ghost invariant = { λ s. length s.calls.items ≡ length s.keys.keys };
}

impl Log {
    // An empty log.
    pub(crate) fn new(alloc: Global) -> Log
        ensures { result ≡ [] }
    {
        Log {
            keys: IndexSet::with_hasher(alloc, BuildHasherDefault::new()),
            calls: Vec::new(alloc),
        }
    }

    // The number of calls.
    pub(crate) fn len(&self) -> usize
        ensures { result ≡ length self.now }
    {
        self.calls.len()
    }

    // The call at an index, if there is one.
    pub(crate) fn get(&self, index: usize) -> Option<&Call>
        ensures { option_copied result ≡ option_map (λ entry. entry.1) (slice_get self.now index) }
    {
        self.calls.as_slice().get(index)
    }

    // The key and the call at an index, if there are any.
    pub(crate) fn keyed_call(&self, index: usize) -> Option<(Key, Call)>
        ensures { result ≡ slice_get self.now index }
    {
        let Some(call) = self.get(index) else {
            return None;
        };
        let key = self.keys.get_index(index).unwrap();
        Some((*key, *call))
    }

    // The index of a key, if a call has it.
    #[inline]
    pub(crate) fn index_of(&self, key: &Key) -> Option<usize>
        ensures value { result ≡ index_of_key self.now key.now }
        ensures within { IfSome result (λ index. index < length self.now) }
    {
        self.keys.get_index_of(key)
    }

    // The index of a key and the call there, if a call has the key.
    pub(crate) fn find(&self, key: &Key) -> Option<(usize, &Call)>
        ensures index { option_map (λ found. found.0) result ≡ index_of_key self.now key.now }
        ensures entry { IfSome result (λ found.
            slice_get self.now found.0 ≡ Some (key.now, found.1.now)) }
    {
        let index = self.index_of(key)?;
        Some((index, &self.calls[index]))
    }

    // Makes room for this many more calls. If memory is refused, nothing is lost.
    pub(crate) fn reserve(&mut self, additional: usize) -> Result<(), AllocError>
        ensures { self.new ≡ self.old }
    {
        self.keys.reserve(additional)?;
        self.calls.reserve(additional)
    }

    // Appends a call with a new key. If memory is refused, the log stays.
    pub(crate) fn push(&mut self, key: Key, call: &Call) -> Result<(), AllocError>
        requires { index_of_key self.old key ≡ None }
        ensures pushed { OnOk result (self.new ≡ self.old ++ (key, call.now) ∷ []) }
        ensures refused { OnErr result (self.new ≡ self.old) }
    {
        // The call's room comes first: from here on only the key can be refused.
        self.calls.reserve(1)?;
        self.keys.insert(key)?;
        // A slice is copied straight from where the call lies, and not by way of the stack.
        self.calls.extend_from_slice(slice::from_ref(call))
    }

    // The calls, in order.
    pub(crate) fn calls(&self) -> &[Call]
        ensures { result.now ≡ calls_of self.now }
    {
        self.calls.as_slice()
    }

    // The calls, in order. The keys are dropped.
    pub(crate) fn into_calls(self) -> Vec<Call>
        ensures { result.items ≡ calls_of self }
    {
        let Log { calls, .. } = self;
        calls
    }
}

//! Which endpoints get a copy of a packet.

ghost use Rattle.std.specs.Prelude.{◌≡◌, ◌<◌, ◌≤◌, [], ◌∷◌, ◌++◌, length, IfOk};

use amt_values::Endpoint;
use std::alloc::{AllocError, Global};
use std::marker::Model;

/// Who gets a copy of a packet.
///
/// The room for the endpoints is taken once, so that no packet waits for memory or is lost without
/// it.
#[derive(Debug, Drop)]
pub struct Targets {
    endpoints: Vec<Endpoint>,
}

impl Model for Targets {
    ghost use Rattle.std.specs.Prelude.{vec_capacity};
    ghost use Rattle.endpoint_membership.specs.Targets.{TargetsValue};

    ghost Value = { TargetsValue };

    ghost view = { λ t. record { room = vec_capacity t.endpoints; endpoints = t.endpoints.items } };
}

impl Targets {
    /// No endpoints, and room for so many.
    pub fn new(alloc: Global, endpoints: u32) -> Result<Targets, AllocError>
        ensures empty { IfOk result (λ targets. targets.endpoints ≡ []) }
        ensures room { IfOk result (λ targets. targets.room ≡ endpoints) }
    {
        Ok(Targets {
            endpoints: Vec::with_capacity(alloc, endpoints as usize)?,
        })
    }

    pub fn as_slice(&self) -> &[Endpoint]
        ensures { result.now ≡ self.now.endpoints }
    {
        self.endpoints.as_slice()
    }

    pub fn len(&self) -> usize
        ensures value { result ≡ length self.now.endpoints }
        ensures within { result ≤ self.now.room }
    {
        self.endpoints.len()
    }

    /// Takes all endpoints out; the room stays.
    pub fn clear(&mut self)
        ensures endpoints { self.new.endpoints ≡ [] }
        ensures room { self.new.room ≡ self.old.room }
    {
        self.endpoints.clear();
    }

    pub(crate) fn push(&mut self, endpoint: Endpoint)
        requires { length self.old.endpoints < self.old.room }
        ensures endpoints { self.new.endpoints ≡ self.old.endpoints ++ endpoint ∷ [] }
        ensures room { self.new.room ≡ self.old.room }
    {
        self.endpoints.push_reserved(endpoint);
    }
}

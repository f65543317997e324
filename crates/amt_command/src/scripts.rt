//! Scripts are replayed: each kind is read and run by its own crate. It knows no line.

ghost use Rattle.amt_command.specs.Command.{dual_task, gateway_task, pair_task, relay_task, upstream_task};

use crate::fault::line_fault;
use crate::task::{HasTask, TaskFault};
use amt_dual_script::{DualScript, read_dual_script, run_dual_script};
use amt_ports::Sink;
use amt_script::{RelayScript, read_relay_script, run_relay_script};
use amt_values::Bytes;
use gateway_script::{GatewayScript, read_gateway_script, run_gateway_script};
use pair_script::{PairScript, read_pair_script, run_pair_script};
use script_lines::RunFault;
use std::alloc::{AllocError, Global};
use upstream_script::run_upstream_script;

/// Relay scripts.
#[derive(Drop)]
pub struct RelayReplay {}

impl HasTask for RelayReplay {
    ghost use Rattle.amt_script.specs.Running.{IsRunnable};

    type Value = RelayScript;

    ghost task = { λ task. relay_task };

    ghost CanWrite = { λ script. IsRunnable script };

    fn read(&self, alloc: Global, bytes: &[u8]) -> Result<RelayScript, TaskFault> {
        match read_relay_script(alloc, bytes) {
            Ok(value) => Ok(value),
            Err(error) => Err(line_fault(alloc, error)),
        }
    }

    fn difference(
        &self,
        _alloc: Global,
        _script: &RelayScript,
    ) -> Result<Option<Bytes>, AllocError> {
        Ok(None)
    }

    fn write<O: Sink>(
        &self,
        alloc: Global,
        script: &RelayScript,
        out: &mut O,
    ) -> Result<(), RunFault> {
        run_relay_script(alloc, script, out)
    }
}

/// Gateway scripts.
#[derive(Drop)]
pub struct GatewayReplay {}

impl HasTask for GatewayReplay {
    ghost use Rattle.gateway_script.specs.Running.{IsRunnable};

    type Value = GatewayScript;

    ghost task = { λ task. gateway_task };

    ghost CanWrite = { λ script. IsRunnable script };

    fn read(&self, alloc: Global, bytes: &[u8]) -> Result<GatewayScript, TaskFault> {
        match read_gateway_script(alloc, bytes) {
            Ok(value) => Ok(value),
            Err(error) => Err(line_fault(alloc, error)),
        }
    }

    fn difference(
        &self,
        _alloc: Global,
        _script: &GatewayScript,
    ) -> Result<Option<Bytes>, AllocError> {
        Ok(None)
    }

    fn write<O: Sink>(
        &self,
        alloc: Global,
        script: &GatewayScript,
        out: &mut O,
    ) -> Result<(), RunFault> {
        run_gateway_script(alloc, script, out)
    }
}

/// Scripts of a relay and its gateways.
#[derive(Drop)]
pub struct PairReplay {}

impl HasTask for PairReplay {
    ghost use Rattle.pair_script.specs.Running.{IsRunnable};

    type Value = PairScript;

    ghost task = { λ task. pair_task };

    ghost CanWrite = { λ script. IsRunnable script };

    fn read(&self, alloc: Global, bytes: &[u8]) -> Result<PairScript, TaskFault> {
        match read_pair_script(alloc, bytes) {
            Ok(value) => Ok(value),
            Err(error) => Err(line_fault(alloc, error)),
        }
    }

    fn difference(
        &self,
        _alloc: Global,
        _script: &PairScript,
    ) -> Result<Option<Bytes>, AllocError> {
        Ok(None)
    }

    fn write<O: Sink>(
        &self,
        alloc: Global,
        script: &PairScript,
        out: &mut O,
    ) -> Result<(), RunFault> {
        run_pair_script(alloc, script, out)
    }
}

/// Scripts of a relay and its gateways, each of both families.
#[derive(Drop)]
pub struct DualReplay {}

impl HasTask for DualReplay {
    ghost use Rattle.amt_dual_script.specs.Running.{IsRunnable};

    type Value = DualScript;

    ghost task = { λ task. dual_task };

    ghost CanWrite = { λ script. IsRunnable script };

    fn read(&self, alloc: Global, bytes: &[u8]) -> Result<DualScript, TaskFault> {
        match read_dual_script(alloc, bytes) {
            Ok(value) => Ok(value),
            Err(error) => Err(line_fault(alloc, error)),
        }
    }

    fn difference(
        &self,
        _alloc: Global,
        _script: &DualScript,
    ) -> Result<Option<Bytes>, AllocError> {
        Ok(None)
    }

    fn write<O: Sink>(
        &self,
        alloc: Global,
        script: &DualScript,
        out: &mut O,
    ) -> Result<(), RunFault> {
        run_dual_script(alloc, script, out)
    }
}

/// Relay scripts, with what the relay's own network has to hear.
#[derive(Drop)]
pub struct UpstreamReplay {}

impl HasTask for UpstreamReplay {
    ghost use Rattle.amt_script.specs.Running.{IsRunnable};

    type Value = RelayScript;

    ghost task = { λ task. upstream_task };

    ghost CanWrite = { λ script. IsRunnable script };

    fn read(&self, alloc: Global, bytes: &[u8]) -> Result<RelayScript, TaskFault> {
        match read_relay_script(alloc, bytes) {
            Ok(value) => Ok(value),
            Err(error) => Err(line_fault(alloc, error)),
        }
    }

    fn difference(
        &self,
        _alloc: Global,
        _script: &RelayScript,
    ) -> Result<Option<Bytes>, AllocError> {
        Ok(None)
    }

    fn write<O: Sink>(
        &self,
        alloc: Global,
        script: &RelayScript,
        out: &mut O,
    ) -> Result<(), RunFault> {
        run_upstream_script(alloc, script, out)
    }
}

//! The lines that begin with the name of a gateway. It knows no settings.

ghost use Rattle.std.specs.Prelude.{◌≤◌, ◌∷◌, List, length, IfOk, IfErr};
ghost use Rattle.amt_script.specs.declared.setting.Setting.{Setting as SettingValue};
ghost use Rattle.script_lines.specs.{Lines.{fields}, Reading.{FailsFirst}};
ghost use Rattle.pair_script.specs.{Fault.{FailsAfter, order_of_reasons}, Opening.{IsFree}, Says.{SaysEventAfter}, declared.script.PairItem.{PairItem as ItemValue}};

use crate::given::{family_of, gateway_named};
use crate::script::PairGateway;
use amt_pair::PairEvent;
use amt_values::Bytes;
use gateway_script::read_socket_call;
use script_lines::{LineError, Reason, next_field};
use std::alloc::Global;

/// The socket call of a line that begins with the name of one of these gateways.
pub fn read_call(
    alloc: Global,
    gateways: &[PairGateway],
    name: &[u8],
    values: &[u8],
) -> Result<PairEvent, LineError>
    requires free { IsFree name.now }
    requires short { length values.now ≤ 140000 }
    ensures found { IfOk result (λ event.
        SaysEventAfter gateways.now event (name.now ∷ fields values.now)) }
    ensures reason { (given : List SettingValue) (items : List ItemValue) → IfErr result
        (FailsFirst (FailsAfter given gateways.now items (name.now ∷ fields values.now)) order_of_reasons) }
{
    let Some(gateway) = gateway_named(gateways, name) else {
        return Err(LineError::Bad(Reason::Word));
    };
    let Some((word, rest)) = next_field(values) else {
        return Err(LineError::Bad(Reason::Count));
    };
    let event = match read_socket_call(alloc, family_of(gateway), word, rest) {
        Ok(event) => event,
        Err(error) => return Err(error),
    };
    match Bytes::copied(alloc, name) {
        Ok(name) => Ok(PairEvent::Socket { name, event }),
        Err(_) => Err(LineError::Memory),
    }
}

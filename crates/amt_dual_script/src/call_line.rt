//! The lines that begin with the name of a gateway. It knows no settings.

ghost use Rattle.std.specs.Prelude.{◌≡◌, ◌≤◌, ◌∷◌, List, length, IfOk, IfErr};
ghost use Rattle.amt_script.specs.declared.setting.Setting.{Setting as SettingValue};
ghost use Rattle.script_lines.specs.{Lines.{fields}, Reading.{FailsFirst}};
ghost use Rattle.socket_merge.specs.FullReport.{family_by};
ghost use Rattle.pair_script.specs.{Fault.{order_of_reasons}, Opening.{IsFree}};
ghost use Rattle.amt_dual_script.specs.{Fault.{FailsAfter}, Says.{SaysEventAfter}, declared.script.DualItem.{DualItem as ItemValue}};

use crate::given::is_name_given;
use crate::script::DualGateway;
use amt_dual::DualPairEvent;
use amt_values::Bytes;
use gateway_script::read_socket_call;
use group_records::Family;
use script_lines::{LineError, Reason, next_field, read_family};
use std::alloc::Global;

fn is_v6(family: Family) -> bool
    ensures { family_by result ≡ family }
{
    family == Family::V6
}

/// The socket call of a line `NAME v4 LINE` or `NAME v6 LINE` that begins with the name of one of these gateways.
pub fn read_call(
    alloc: Global,
    gateways: &[DualGateway],
    name: &[u8],
    values: &[u8],
) -> Result<DualPairEvent, LineError>
    requires free { IsFree name.now }
    requires short { length values.now ≤ 140000 }
    ensures found { IfOk result (λ event.
        SaysEventAfter gateways.now event (name.now ∷ fields values.now)) }
    ensures reason { (given : List SettingValue) (items : List ItemValue) → IfErr result
        (FailsFirst (FailsAfter given gateways.now items (name.now ∷ fields values.now)) order_of_reasons) }
{
    if !is_name_given(gateways, name) {
        return Err(LineError::Bad(Reason::Word));
    }
    let Some((family, rest)) = next_field(values) else {
        return Err(LineError::Bad(Reason::Count));
    };
    let Some(family) = read_family(family) else {
        return Err(LineError::Bad(Reason::Word));
    };
    let Some((word, rest)) = next_field(rest) else {
        return Err(LineError::Bad(Reason::Count));
    };
    let event = match read_socket_call(alloc, family, word, rest) {
        Ok(event) => event,
        Err(error) => return Err(error),
    };
    match Bytes::copied(alloc, name) {
        Ok(name) => Ok(DualPairEvent::Socket {
            name,
            v6: is_v6(family),
            event,
        }),
        Err(_) => {
            drop(event);
            Err(LineError::Memory)
        }
    }
}

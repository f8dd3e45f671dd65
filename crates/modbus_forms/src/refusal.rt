ghost use Rattle.std.specs.Prelude.{◌≡◌};

use plain_lists::Want;
use thiserror::Error;

/// Why bytes spell no message: the first fault in the order in which a receiver looks (`specs/Frame.antt`).
#[derive(Clone, Copy, Debug, PartialEq, Eq, Error)]
pub enum ModbusRefusal {
    /// The bytes end inside the header, or before the length in it.
    #[error("the bytes end too early")]
    Short,
    /// Bytes are left behind the length in the header.
    #[error("bytes are left over")]
    Trailing,
    /// Another protocol than Modbus, which is 0.
    #[error("another protocol")]
    BadProtocol,
    /// A length that no message has, or a size that the function's message hasn't.
    #[error("a wrong length")]
    BadLength,
    #[error("want of memory")]
    Want,
}

impl From<Want> for ModbusRefusal {
    ghost use Rattle.modbus_forms.specs.declared.refusal.ModbusRefusal.TheVariants as fault;

    ghost from_gives = { λ _ e. e ≡ fault.Want };

    fn from(_want: Want) -> ModbusRefusal {
        ModbusRefusal::Want
    }
}

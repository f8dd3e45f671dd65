use plain_lists::Bytes;

/// What a client asks of a device: the number of the transaction, the unit behind the device's address, and the request
/// itself, its protocol data unit (PDU).
#[derive(Drop)]
pub struct Request {
    pub transaction: u16,
    pub unit: u8,
    pub pdu: RequestPdu,
}

/// A request by its function (V1.1b3, sections 6.1 to 6.6, 6.11 and 6.12). Places count from 0.
#[derive(Drop)]
pub enum RequestPdu {
    /// Function 1 reads coils, 2 discrete inputs.
    ReadBits {
        function: u8,
        place: u16,
        quantity: u16,
    },
    /// Function 3 reads holding registers, 4 input registers.
    ReadRegisters {
        function: u8,
        place: u16,
        quantity: u16,
    },
    /// Function 5: 0xFF00 sets the coil, 0 clears it.
    WriteCoil {
        place: u16,
        value: u16,
    },
    /// Function 6, of a holding register.
    WriteRegister {
        place: u16,
        value: u16,
    },
    /// Function 15: a bit for each coil, from the lowest bit of the first byte on.
    WriteCoils {
        place: u16,
        quantity: u16,
        bytes: Bytes,
    },
    /// Function 16: two bytes for each holding register, the higher first.
    WriteRegisters {
        place: u16,
        quantity: u16,
        bytes: Bytes,
    },
    /// Any other function, with whatever follows it.
    Other {
        function: u8,
        bytes: Bytes,
    },
}

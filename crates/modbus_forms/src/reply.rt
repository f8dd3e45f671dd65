use plain_lists::Bytes;

/// What a device answers, under the transaction and the unit of the request.
#[derive(Drop)]
pub struct Reply {
    pub transaction: u16,
    pub unit: u8,
    pub pdu: ReplyPdu,
}

/// A reply by its function (V1.1b3, sections 6.1 to 6.6, 6.11, 6.12 and 7).
#[derive(Drop)]
pub enum ReplyPdu {
    /// To functions 1 and 2: a bit for each place, from the lowest bit of the first byte on.
    Bits {
        function: u8,
        bytes: Bytes,
    },
    /// To functions 3 and 4: two bytes for each register, the higher first.
    Registers {
        function: u8,
        bytes: Bytes,
    },
    /// To functions 5 and 6, an echo of the request.
    Wrote {
        function: u8,
        place: u16,
        value: u16,
    },
    /// To functions 15 and 16: where was written, and how many places.
    WroteMany {
        function: u8,
        place: u16,
        quantity: u16,
    },
    /// A refusal: the request's function with its highest bit set, and why.
    Exception {
        function: u8,
        code: u8,
    },
}

use message_types::Voucher;

/// A voucher with the master that signed it.
#[derive(Clone, Copy, PartialEq, Eq)]
pub struct Vote {
    pub signer: u32,
    pub voucher: Voucher,
}

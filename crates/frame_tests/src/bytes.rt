use message_forms::{FormRefusal, read_frame};
use std::alloc::Global;
use std::test::Fail;
use wire_parts::{put_bytes, put_u16, put_u32, put_u64};

/// An update that acknowledges alarm 0, of client 0 and signer 4, without a signature.
pub const PLAIN: [u8; 31] = [
    0, 0, 0, 4, 0, 0, 0, 0x13, 0, 1, 0, 0, 0, 0, 0, 0, 0, 0, 0, 0, 0, 1, 3, 0, 0, 0, 0, 0, 0, 0, 0,
];

/// The text of a summary of four masters, all of whose numbers are 0.
pub const SUMMARY: [u8; 36] = [
    0, 4, 0, 4, 0, 0, 0, 0, 0, 0, 0, 0, 0, 0, 0, 0, 0, 0, 0, 0, 0, 0, 0, 0, 0, 0, 0, 0, 0, 0, 0, 0,
    0, 0, 0, 0,
];

fn number_of(field: &[u8]) -> u32 {
    (field.len() % 0x1_0000_0000) as u32
}

pub fn framed(alloc: Global, signer: u32, body: &[u8], sig: &[u8]) -> Result<Vec<u8>, Fail> {
    let mut bytes = Vec::new(alloc);
    put_u32(&mut bytes, signer)?;
    put_u32(&mut bytes, number_of(body))?;
    put_bytes(&mut bytes, body)?;
    put_u32(&mut bytes, number_of(sig))?;
    put_bytes(&mut bytes, sig)?;
    Ok(bytes)
}

/// The text of a preprepare of view 0 and number 1 with these three frames.
pub fn offered(alloc: Global, first: &[u8], second: &[u8], third: &[u8]) -> Result<Vec<u8>, Fail> {
    let mut text = Vec::new(alloc);
    put_u16(&mut text, 5)?;
    put_u64(&mut text, 0)?;
    put_u64(&mut text, 1)?;
    put_u16(&mut text, 3)?;
    put_bytes(&mut text, first)?;
    put_bytes(&mut text, second)?;
    put_bytes(&mut text, third)?;
    Ok(text)
}

// A preprepare without signatures, with summaries of these masters.
fn plain_offer(alloc: Global, first: u32, second: u32, third: u32) -> Result<Vec<u8>, Fail> {
    let one = framed(alloc, first, &SUMMARY, &[])?;
    let two = framed(alloc, second, &SUMMARY, &[])?;
    let three = framed(alloc, third, &SUMMARY, &[])?;
    let text = offered(alloc, &one, &two, &three)?;
    framed(alloc, 0, &text, &[])
}

/// The first fault of bytes that spell no frame.
pub fn fault_of(alloc: Global, bytes: &[u8]) -> Option<FormRefusal> {
    read_frame(alloc, bytes).err()
}

fn is_short(fault: Option<FormRefusal>) -> bool {
    matches!(fault, Some(FormRefusal::Short { .. }))
}

#[test]
fn each_cut_is_short(rt: HostRuntime) {
    for cut in 0..31usize {
        let place = match cut {
            0..=3 => 0,
            4..=7 => 4,
            8..=26 => 8,
            _ => 27,
        };
        let fault = fault_of(rt.alloc(), &PLAIN[..cut]);
        assert!(rt; fault == Some(FormRefusal::Short { place }));
    }
}

#[test]
fn each_cut_of_a_preprepare_is_short(rt: HostRuntime) -> Result<(), Fail> {
    let whole = plain_offer(rt.alloc(), 1, 2, 3)?;
    assert!(rt; fault_of(rt.alloc(), &whole).is_none());
    for cut in 0..whole.len() {
        assert!(rt; is_short(fault_of(rt.alloc(), &whole[..cut])));
    }
    Ok(())
}

#[test]
fn equal_signers_are_out_of_order(rt: HostRuntime) -> Result<(), Fail> {
    let bytes = plain_offer(rt.alloc(), 1, 1, 2)?;
    let fault = fault_of(rt.alloc(), &bytes);
    assert!(rt; fault == Some(FormRefusal::BadOrder { place: 76 }));
    Ok(())
}

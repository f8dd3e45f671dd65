ghost use Rattle.std.specs.Prelude.{IsTrue};
ghost use Rattle.modbus_forms.specs.Requests.{request_pdu_fits};
ghost use Rattle.modbus_forms.specs.Replies.{reply_pdu_fits};

use modbus_forms::{
    ModbusRefusal, Reply, ReplyPdu, Request, RequestPdu, read_reply, read_request, write_reply,
    write_request,
};
use plain_lists::Bytes;
use std::alloc::Global;
use std::process::Abort;
use std::test::Fail;

// The frames were made by pymodbus (trials/interop).

fn asks(
    rt: &impl Abort,
    alloc: Global,
    transaction: u16,
    pdu: RequestPdu,
    frame: &[u8],
) -> Result<(), Fail>
    requires { IsTrue (request_pdu_fits pdu) }
{
    let request = Request {
        transaction,
        unit: 17,
        pdu,
    };
    assert_eq!(rt; write_request(alloc, &request)?.as_slice(), frame);
    let read = read_request(alloc, frame)?;
    assert_eq!(rt; write_request(alloc, &read)?.as_slice(), frame);
    Ok(())
}

fn answers(
    rt: &impl Abort,
    alloc: Global,
    transaction: u16,
    pdu: ReplyPdu,
    frame: &[u8],
) -> Result<(), Fail>
    requires { IsTrue (reply_pdu_fits pdu) }
{
    let reply = Reply {
        transaction,
        unit: 17,
        pdu,
    };
    assert_eq!(rt; write_reply(alloc, &reply)?.as_slice(), frame);
    let read = read_reply(alloc, frame)?;
    assert_eq!(rt; write_reply(alloc, &read)?.as_slice(), frame);
    Ok(())
}

#[test]
fn requests_are_those_of_another_program(rt: HostRuntime) -> Result<(), Fail> {
    let alloc = rt.alloc();
    asks(
        &rt,
        alloc,
        1,
        RequestPdu::ReadBits {
            function: 1,
            place: 0x13,
            quantity: 0x13,
        },
        b"\x00\x01\x00\x00\x00\x06\x11\x01\x00\x13\x00\x13",
    )?;
    asks(
        &rt,
        alloc,
        2,
        RequestPdu::ReadBits {
            function: 2,
            place: 0xc4,
            quantity: 0x16,
        },
        b"\x00\x02\x00\x00\x00\x06\x11\x02\x00\xc4\x00\x16",
    )?;
    asks(
        &rt,
        alloc,
        3,
        RequestPdu::ReadRegisters {
            function: 3,
            place: 0x6b,
            quantity: 3,
        },
        b"\x00\x03\x00\x00\x00\x06\x11\x03\x00\x6b\x00\x03",
    )?;
    asks(
        &rt,
        alloc,
        4,
        RequestPdu::ReadRegisters {
            function: 4,
            place: 8,
            quantity: 1,
        },
        b"\x00\x04\x00\x00\x00\x06\x11\x04\x00\x08\x00\x01",
    )?;
    Ok(())
}

#[test]
fn writes_are_those_of_another_program(rt: HostRuntime) -> Result<(), Fail> {
    let alloc = rt.alloc();
    asks(
        &rt,
        alloc,
        5,
        RequestPdu::WriteCoil {
            place: 0xac,
            value: 0xff00,
        },
        b"\x00\x05\x00\x00\x00\x06\x11\x05\x00\xac\xff\x00",
    )?;
    asks(
        &rt,
        alloc,
        6,
        RequestPdu::WriteRegister { place: 1, value: 3 },
        b"\x00\x06\x00\x00\x00\x06\x11\x06\x00\x01\x00\x03",
    )?;
    let bits = Bytes::from_slice(alloc, b"\xcd\x01")?;
    assert!(rt; bits.len() == 2);
    asks(
        &rt,
        alloc,
        7,
        RequestPdu::WriteCoils {
            place: 0x13,
            quantity: 10,
            bytes: bits,
        },
        b"\x00\x07\x00\x00\x00\x09\x11\x0f\x00\x13\x00\x0a\x02\xcd\x01",
    )?;
    let registers = Bytes::from_slice(alloc, b"\x00\x0a\x01\x02")?;
    assert!(rt; registers.len() == 4);
    asks(
        &rt,
        alloc,
        8,
        RequestPdu::WriteRegisters {
            place: 1,
            quantity: 2,
            bytes: registers,
        },
        b"\x00\x08\x00\x00\x00\x0b\x11\x10\x00\x01\x00\x02\x04\x00\x0a\x01\x02",
    )?;
    Ok(())
}

#[test]
fn readings_are_those_of_another_program(rt: HostRuntime) -> Result<(), Fail> {
    let alloc = rt.alloc();
    let coils = Bytes::from_slice(alloc, b"\xcd\x6b\x05")?;
    assert!(rt; coils.len() == 3);
    answers(
        &rt,
        alloc,
        1,
        ReplyPdu::Bits {
            function: 1,
            bytes: coils,
        },
        b"\x00\x01\x00\x00\x00\x06\x11\x01\x03\xcd\x6b\x05",
    )?;
    let inputs = Bytes::from_slice(alloc, b"\xac\xdb\x35")?;
    assert!(rt; inputs.len() == 3);
    answers(
        &rt,
        alloc,
        2,
        ReplyPdu::Bits {
            function: 2,
            bytes: inputs,
        },
        b"\x00\x02\x00\x00\x00\x06\x11\x02\x03\xac\xdb\x35",
    )?;
    let holding = Bytes::from_slice(alloc, b"\x02\x2b\x00\x00\x00\x64")?;
    assert!(rt; holding.len() == 6);
    answers(
        &rt,
        alloc,
        3,
        ReplyPdu::Registers {
            function: 3,
            bytes: holding,
        },
        b"\x00\x03\x00\x00\x00\x09\x11\x03\x06\x02\x2b\x00\x00\x00\x64",
    )?;
    let input = Bytes::from_slice(alloc, b"\x00\x0a")?;
    assert!(rt; input.len() == 2);
    answers(
        &rt,
        alloc,
        4,
        ReplyPdu::Registers {
            function: 4,
            bytes: input,
        },
        b"\x00\x04\x00\x00\x00\x05\x11\x04\x02\x00\x0a",
    )?;
    Ok(())
}

#[test]
fn other_replies_are_those_of_another_program(rt: HostRuntime) -> Result<(), Fail> {
    let alloc = rt.alloc();
    answers(
        &rt,
        alloc,
        5,
        ReplyPdu::Wrote {
            function: 5,
            place: 0xac,
            value: 0xff00,
        },
        b"\x00\x05\x00\x00\x00\x06\x11\x05\x00\xac\xff\x00",
    )?;
    answers(
        &rt,
        alloc,
        6,
        ReplyPdu::Wrote {
            function: 6,
            place: 1,
            value: 3,
        },
        b"\x00\x06\x00\x00\x00\x06\x11\x06\x00\x01\x00\x03",
    )?;
    answers(
        &rt,
        alloc,
        7,
        ReplyPdu::WroteMany {
            function: 15,
            place: 0x13,
            quantity: 10,
        },
        b"\x00\x07\x00\x00\x00\x06\x11\x0f\x00\x13\x00\x0a",
    )?;
    answers(
        &rt,
        alloc,
        8,
        ReplyPdu::WroteMany {
            function: 16,
            place: 1,
            quantity: 2,
        },
        b"\x00\x08\x00\x00\x00\x06\x11\x10\x00\x01\x00\x02",
    )?;
    answers(
        &rt,
        alloc,
        9,
        ReplyPdu::Exception {
            function: 0x81,
            code: 2,
        },
        b"\x00\x09\x00\x00\x00\x03\x11\x81\x02",
    )?;
    answers(
        &rt,
        alloc,
        10,
        ReplyPdu::Exception {
            function: 0x87,
            code: 1,
        },
        b"\x00\x0a\x00\x00\x00\x03\x11\x87\x01",
    )?;
    Ok(())
}

fn refused(alloc: Global, bytes: &[u8]) -> Option<ModbusRefusal> {
    read_request(alloc, bytes).err()
}

#[test]
fn the_first_fault_is_named(rt: HostRuntime) {
    let alloc = rt.alloc();
    let short = Some(ModbusRefusal::Short);
    let bad_length = Some(ModbusRefusal::BadLength);
    let bad_protocol = Some(ModbusRefusal::BadProtocol);
    let trailing = Some(ModbusRefusal::Trailing);
    for (bytes, refusal) in [
        (b"\x00\x01\x00\x01\x00\x06".as_slice(), short),
        (b"\x00\x01\x00\x01\x00\x06\x01".as_slice(), bad_protocol),
        (b"\x00\x01\x00\x00\x00\x01\x01".as_slice(), bad_length),
        (b"\x00\x01\x00\x00\x00\x06\x01\x05".as_slice(), short),
        (b"\x00\x01\x00\x00\x00\x02\x01\x07\x00".as_slice(), trailing),
        (
            b"\x00\x01\x00\x00\x00\x03\x01\x05\x00".as_slice(),
            bad_length,
        ),
        (b"\x00\x01\x00\x00\x00\x03\x01\x07\x00".as_slice(), None),
    ] {
        assert_eq!(rt; refused(alloc, bytes), refusal);
    }
    assert_eq!(rt; read_reply(alloc, b"\x00\x01\x00\x00\x00").err(), short);
    assert_eq!(rt;
        read_reply(alloc, b"\x00\x01\x00\x00\x00\x02\x01\x07").err(),
        bad_length
    );
}

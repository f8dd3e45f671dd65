use field_device::{Device, NoPlace};
use modbus_forms::{read_request, write_reply};
use point_table::{Area, DeviceSizes};
use std::alloc::Global;
use std::test::Fail;

const SIZES: DeviceSizes = DeviceSizes {
    coils: 2,
    discrete: 0,
    holding: 1,
    input: 1,
};

fn replied(alloc: Global, device: &mut Device, frame: &[u8]) -> Result<Vec<u8>, Fail> {
    let request = read_request(alloc, frame)?;
    let reply = device.answer(&request)?;
    Ok(write_reply(alloc, &reply)?)
}

#[test]
fn a_device_answers_in_frames(rt: HostRuntime) -> Result<(), Fail> {
    let alloc = rt.alloc();
    let mut device = Device::make(alloc, &SIZES)?;
    assert_eq!(rt; device.change(Area::Coil, 2, 1), Err(NoPlace));
    assert_eq!(rt; device.change(Area::Coil, 0, 7), Ok(()));
    assert_eq!(rt; device.value(Area::Coil, 0), Some(1));
    let off = b"\x00\x01\x00\x00\x00\x06\x01\x05\x00\x00\x00\x00";
    assert_eq!(rt;
        replied(alloc, &mut device, off)?.as_slice(),
        off.as_slice()
    );
    assert_eq!(rt; device.value(Area::Coil, 0), Some(0));
    assert_eq!(rt; device.change(Area::Input, 0, 950), Ok(()));
    let reading = replied(
        alloc,
        &mut device,
        b"\x00\x02\x00\x00\x00\x06\x01\x04\x00\x00\x00\x01",
    )?;
    assert_eq!(rt;
        reading.as_slice(),
        b"\x00\x02\x00\x00\x00\x05\x01\x04\x02\x03\xb6".as_slice()
    );
    Ok(())
}

#[test]
fn a_device_answers_with_exceptions(rt: HostRuntime) -> Result<(), Fail> {
    let alloc = rt.alloc();
    let mut device = Device::make(alloc, &SIZES)?;
    // no such place, no such function, too many places, a function above 127
    let exchanges = [
        (
            b"\x00\x03\x00\x00\x00\x06\x01\x05\x00\x09\xff\x00".as_slice(),
            b"\x00\x03\x00\x00\x00\x03\x01\x85\x02".as_slice(),
        ),
        (
            b"\x00\x04\x00\x00\x00\x02\x01\x07".as_slice(),
            b"\x00\x04\x00\x00\x00\x03\x01\x87\x01".as_slice(),
        ),
        (
            b"\x00\x05\x00\x00\x00\x06\x01\x03\xff\xff\x00\x7e".as_slice(),
            b"\x00\x05\x00\x00\x00\x03\x01\x83\x03".as_slice(),
        ),
        (
            b"\x00\x06\x00\x00\x00\x02\x01\x91".as_slice(),
            b"\x00\x06\x00\x00\x00\x03\x01\x91\x01".as_slice(),
        ),
    ];
    for (frame, reply) in exchanges {
        assert_eq!(rt; replied(alloc, &mut device, frame)?.as_slice(), reply);
    }
    Ok(())
}

#[test]
fn many_places_are_written_and_read(rt: HostRuntime) -> Result<(), Fail> {
    let alloc = rt.alloc();
    let sizes = DeviceSizes {
        coils: 40,
        discrete: 0,
        holding: 3,
        input: 0,
    };
    let mut device = Device::make(alloc, &sizes)?;
    // coils written and read, registers written and read
    let exchanges = [
        (
            b"\x00\x07\x00\x00\x00\x09\x11\x0f\x00\x13\x00\x0a\x02\xcd\x01".as_slice(),
            b"\x00\x07\x00\x00\x00\x06\x11\x0f\x00\x13\x00\x0a".as_slice(),
        ),
        (
            b"\x00\x08\x00\x00\x00\x06\x11\x01\x00\x12\x00\x0b".as_slice(),
            b"\x00\x08\x00\x00\x00\x05\x11\x01\x02\x9a\x03".as_slice(),
        ),
        (
            b"\x00\x08\x00\x00\x00\x0b\x11\x10\x00\x01\x00\x02\x04\x00\x0a\x01\x02".as_slice(),
            b"\x00\x08\x00\x00\x00\x06\x11\x10\x00\x01\x00\x02".as_slice(),
        ),
        (
            b"\x00\x09\x00\x00\x00\x06\x11\x03\x00\x00\x00\x03".as_slice(),
            b"\x00\x09\x00\x00\x00\x09\x11\x03\x06\x00\x00\x00\x0a\x01\x02".as_slice(),
        ),
    ];
    for (frame, reply) in exchanges {
        assert_eq!(rt; replied(alloc, &mut device, frame)?.as_slice(), reply);
    }
    assert_eq!(rt; device.value(Area::Holding, 2), Some(0x0102));
    Ok(())
}

use message_forms::{batch_text, read_frame, text_of, write_frame};
use message_types::{Body, Op, Update};
use std::test::Fail;

// An update that acknowledges alarm 0, of client 0 and signer 4, without a signature.
const PLAIN: [u8; 31] = [
    0, 0, 0, 4, 0, 0, 0, 0x13, 0, 1, 0, 0, 0, 0, 0, 0, 0, 0, 0, 0, 0, 1, 3, 0, 0, 0, 0, 0, 0, 0, 0,
];

const ASKED: Update = Update {
    client: 0,
    t: 1,
    op: Op::Ack { alarm: 0 },
};

#[test]
fn the_plain_frame_is_read_and_written_back(rt: HostRuntime) -> Result<(), Fail> {
    let frame = read_frame(rt.alloc(), &PLAIN)?;
    assert_eq!(rt; frame.signer, 4);
    assert!(rt; frame.sig.is_empty());
    let Body::Update(update) = &frame.body else {
        return Err("another kind".into());
    };
    assert_eq!(rt; *update, ASKED);
    assert_eq!(rt; text_of(rt.alloc(), &frame.body)?.len(), 19);
    assert_eq!(rt;
        write_frame(rt.alloc(), &frame)?.as_slice(),
        PLAIN.as_slice()
    );
    Ok(())
}

#[test]
fn a_batch_has_its_mark_and_its_count(rt: HostRuntime) {
    assert_eq!(rt;
        &batch_text(3, &[7; 32])[..5],
        [0x00, 0xf1, 0x00, 0x03, 7].as_slice()
    );
}

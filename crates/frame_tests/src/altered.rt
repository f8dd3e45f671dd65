use crate::bytes::{PLAIN, fault_of};
use message_forms::FormRefusal;
use std::alloc::Global;
use std::test::Fail;
use wire_parts::put_bytes;

/// The plain frame with the bytes between two places replaced, and its first fault then.
#[derive(Clone, Copy)]
struct Altered {
    name: &'static str,
    from: usize,
    to: usize,
    put: &'static [u8],
    fault: FormRefusal,
}

const FORMS: [Altered; 7] = [
    Altered {
        name: "a byte less",
        from: 30,
        to: 31,
        put: &[],
        fault: FormRefusal::Short { place: 27 },
    },
    Altered {
        name: "a byte more",
        from: 31,
        to: 31,
        put: &[0],
        fault: FormRefusal::Trailing { place: 31 },
    },
    Altered {
        name: "a kind that is none",
        from: 8,
        to: 10,
        put: &[0x00, 0xff],
        fault: FormRefusal::UnknownKind { place: 8 },
    },
    Altered {
        name: "an operation that is none",
        from: 22,
        to: 23,
        put: &[9],
        fault: FormRefusal::UnknownKind { place: 22 },
    },
    Altered {
        name: "a body longer than its fields",
        from: 4,
        to: 8,
        put: &[0, 0, 0, 0x14],
        fault: FormRefusal::Trailing { place: 27 },
    },
    Altered {
        name: "a body longer than the input",
        from: 4,
        to: 8,
        put: &[0, 0, 0, 0xff],
        fault: FormRefusal::Short { place: 8 },
    },
    Altered {
        name: "a body longer than bodies may be",
        from: 4,
        to: 8,
        put: &[0xff, 0xff, 0xff, 0xff],
        fault: FormRefusal::TooLong { place: 4 },
    },
];

fn bytes_of(alloc: Global, form: &Altered) -> Result<Vec<u8>, Fail> {
    let before = PLAIN.get(..form.from).ok_or("no such place")?;
    let after = PLAIN.get(form.to..).ok_or("no such place")?;
    let mut bytes = Vec::from_slice(alloc, before)?;
    put_bytes(&mut bytes, form.put)?;
    put_bytes(&mut bytes, after)?;
    Ok(bytes)
}

#[test]
fn each_altered_form_has_its_first_fault(rt: HostRuntime) -> Result<(), Fail> {
    for form in FORMS {
        let bytes = bytes_of(rt.alloc(), &form)?;
        assert_eq!(rt;
            fault_of(rt.alloc(), &bytes),
            Some(form.fault),
            "{}",
            form.name
        );
    }
    Ok(())
}

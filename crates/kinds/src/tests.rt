use crate::controller::ControllerNumber;
use crate::kind::{FromText, Readable};
use crate::range::Range;
use crate::version::Version;
use std::alloc::AllocError;

// A text and the major, minor and micro that it reads as.
const VERSIONS: [(&[u8], Option<(u16, u16, u16)>); 14] = [
    (b"1.2", Some((1, 2, 0))),
    (b"65535", Some((65535, 0, 0))),
    (b"65536", None),
    (b"1.65536", None),
    (b"1.2.65536", None),
    (b"4294967297", None),
    (b"01.002", Some((1, 2, 0))),
    (b"1.2.3.a-b_c", Some((1, 2, 3))),
    (b"", None),
    (b"1.", None),
    (b"1..2", None),
    (b"1.2.3.", None),
    (b"1.2.3.4.5", None),
    (b"1.2.3.\xff", None),
];

#[test]
fn versions(rt: HostRuntime) {
    for (text, expected) in VERSIONS {
        let read = Version::read(text).map(|v| (v.major, v.minor, v.micro));
        assert_eq!(rt; read, expected);
    }
}

// A range, a value and whether the range holds it; `None` where the range does not read.
const MEMBERS: [(&[u8], &[u8], Option<bool>); 16] = [
    (b"[1.0,2.0)", b"1.0.0", Some(true)),
    (b"[1.0,2.0)", b"2.0.0", Some(false)),
    (b"[1.0,2.0)", b"0.65535.65535", Some(false)),
    (b"(1.0,2.0]", b"1", Some(false)),
    (b"(1.0,2.0]", b"2", Some(true)),
    (b"1.2", b"1.2", Some(true)),
    (b"1.2", b"65535.65535.65535", Some(true)),
    (b"1.2", b"1.1.9", Some(false)),
    (b"[2,1]", b"1", Some(false)),
    (b"[2,1]", b"2", Some(false)),
    (b"[1,2", b"1", None),
    (b"[1]", b"1", None),
    (b"1,2", b"1", None),
    (b"[1,2,3]", b"1", None),
    (b"", b"1", None),
    (b"[", b"1", None),
];

#[test]
fn members(rt: HostRuntime) {
    for (range, value, expected) in MEMBERS {
        assert_eq!(rt; member::<Version>(range, value), expected);
    }
}

const CONTROLLERS: [(&[u8], &[u8], Option<bool>); 6] = [
    (b"[7,9]", b"9", Some(true)),
    (b"[7,9)", b"9", Some(false)),
    (b"65535", b"065535", Some(true)),
    (b"65536", b"7", None),
    (b"0", b"0", Some(true)),
    (b"1.0", b"1", None),
];

#[test]
fn controllers(rt: HostRuntime) {
    for (range, value, expected) in CONTROLLERS {
        assert_eq!(rt; member::<ControllerNumber>(range, value), expected);
    }
}

// Ranges, each the text of what it reads as, and a version.
#[test]
fn printed(rt: HostRuntime) -> Result<(), AllocError> {
    for text in ["7", "[7,9)", "(0,65535]"] {
        let range = Range::<ControllerNumber>::read(text.as_bytes()).unwrap_or_default();
        assert_eq!(rt; range.to_string(rt.alloc())?.as_str(), text);
    }
    let version = Version::read(b"01.2").unwrap_or_default();
    assert_eq!(rt; version.to_string(rt.alloc())?.as_str(), "1.2.0");
    Ok(())
}

fn member<K: Readable>(range: &[u8], value: &[u8]) -> Option<bool> {
    Some(Range::<K>::read(range)?.holds(&K::read(value)?))
}

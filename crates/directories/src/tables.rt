// Short directories: what question each is refused by, and where.
use crate::built::refusal;
use manifest::question::Question;

// A directory, and the question that refuses it, if one does, with its number and the offset.
const ROWS: [(&[u8], Option<(Question, u8, u32)>); 30] = [
    (b"", None),
    (b"Bundle-SymbolicName: a\n\n", None),
    (
        b"Bundle-SymbolicName: a\nX: b\x01c\n\n",
        Some((Question::StrayByte, 2, 23)),
    ),
    (
        b"Bundle-SymbolicName: a\r\n\n",
        Some((Question::StrayByte, 2, 0)),
    ),
    (
        b"Bundle-SymbolicName: a\n",
        Some((Question::NotClosed, 3, 23)),
    ),
    (
        b"Bundle-SymbolicName: a",
        Some((Question::NotClosed, 3, 22)),
    ),
    (b"\n", Some((Question::NoSymbolicName, 11, 0))),
    (
        b"Bundle-SymbolicName: a\n\n\n",
        Some((Question::NoSymbolicName, 11, 24)),
    ),
    (b"X:y\n\n", Some((Question::NotAHeader, 5, 0))),
    (b"X: \n\n", Some((Question::NotAHeader, 5, 0))),
    (b": y\n\n", Some((Question::NotAHeader, 5, 0))),
    (b"X.Y: z\n\n", Some((Question::NotAHeader, 5, 0))),
    (
        b"Bundle-SymbolicName: a\nBundle-SymbolicName: b\n\n",
        Some((Question::HeaderTwice, 6, 23)),
    ),
    (
        b"X: y\nX: y\nBundle-SymbolicName: a\nbundle-version: x\n\n",
        None,
    ),
    (
        b"Bundle-SymbolicName:  a\n\n",
        Some((Question::Malformed, 7, 0)),
    ),
    (
        b"Bundle-SymbolicName: a..b\n\n",
        Some((Question::Malformed, 7, 0)),
    ),
    (
        b"Export-Package: p;uses:=\"\"\n\n",
        Some((Question::Malformed, 7, 0)),
    ),
    (
        b"Export-Package: p;version=1\n\n",
        Some((Question::Malformed, 7, 0)),
    ),
    (
        b"Export-Package: p;version=\"1\";version=\"1\"\n\n",
        Some((Question::Malformed, 7, 0)),
    ),
    (
        b"Import-Package: p;visibility:=private\n\n",
        Some((Question::Malformed, 7, 0)),
    ),
    (b"Import-Package: p,\n\n", Some((Question::Malformed, 7, 0))),
    (
        b"Export-Package: p;version=\"\"\n\n",
        Some((Question::Unreadable, 8, 0)),
    ),
    (
        b"Import-Package: p;version=\"[1,2\"\n\n",
        Some((Question::Unreadable, 8, 0)),
    ),
    (b"Bundle-Version: 65535\nBundle-SymbolicName: a\n\n", None),
    (
        b"Bundle-Version: 65536\n\n",
        Some((Question::Unreadable, 8, 0)),
    ),
    (
        b"X-Controller: [1,65536]\n\n",
        Some((Question::Unreadable, 8, 0)),
    ),
    (
        b"Export-Package: p,q,p\n\n",
        Some((Question::NameTwice, 10, 0)),
    ),
    (
        b"Import-Package: p\nRequire-Bundle: p\nExport-Package: p\nBundle-SymbolicName: p\n\n",
        None,
    ),
    (
        b"Bundle-SymbolicName: a\n\nBundle-SymbolicName: a\nBundle-Version: 0.0.0.x\n\n",
        Some((Question::BundleTwice, 13, 71)),
    ),
    (
        b"Bundle-SymbolicName: a\n\nBundle-SymbolicName: a\nBundle-Version: 0.0.1\n\n",
        None,
    ),
];

#[test]
fn each_question(rt: HostRuntime) {
    for (text, expected) in ROWS {
        assert_eq!(rt; refusal(text), expected);
    }
}

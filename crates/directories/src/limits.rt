// Both sides of every limit.
use crate::built::{bundles, push_clauses, refusal, with_headers, with_value};
use manifest::question::Question;
use std::test::Fail;

const IMPORT: &str = "Import-Package: ";

const REQUIRE: &str = "Require-Bundle: ";

// The headers of a bundle, each with its number of clauses, and why they are refused, if they are.
const NEEDS: [(&[(&str, usize)], Option<(Question, u8, u32)>); 6] = [
    (&[(IMPORT, 16)], None),
    (&[(IMPORT, 15), (REQUIRE, 1)], None),
    (&[(REQUIRE, 15), (IMPORT, 1)], None),
    (&[(IMPORT, 17)], Some((Question::OverLimit, 9, 0))),
    (
        &[(IMPORT, 9), (REQUIRE, 8)],
        Some((Question::OverLimit, 9, 34)),
    ),
    (
        &[(REQUIRE, 8), (IMPORT, 9)],
        Some((Question::OverLimit, 9, 32)),
    ),
];

#[test]
fn needs(rt: HostRuntime) -> Result<(), Fail> {
    for (headers, expected) in NEEDS {
        let text = with_headers(rt.alloc(), headers)?;
        assert_eq!(rt; refusal(text.as_bytes()), expected);
    }
    Ok(())
}

#[test]
fn exports(rt: HostRuntime) -> Result<(), Fail> {
    let sixteen = with_headers(rt.alloc(), &[("Export-Package: ", 16)])?;
    assert_eq!(rt; refusal(sixteen.as_bytes()), None);
    let mut seventeen = String::new(rt.alloc());
    push_clauses(&mut seventeen, "Export-Package: a,", 16)?;
    seventeen.push_str("\n")?;
    assert_eq!(rt;
        refusal(seventeen.as_bytes()),
        Some((Question::OverLimit, 9, 0))
    );
    Ok(())
}

#[test]
fn places(rt: HostRuntime) -> Result<(), Fail> {
    assert_eq!(rt; refusal(bundles(rt.alloc(), 64)?.as_bytes()), None);
    let more = bundles(rt.alloc(), 65)?;
    assert!(rt;
        matches!(
            refusal(more.as_bytes()),
            Some((Question::TooManyBundles, 12, _))
        )
    );
    Ok(())
}

#[test]
fn lengths(rt: HostRuntime) -> Result<(), Fail> {
    let heap = rt.alloc();
    assert_eq!(rt;
        refusal(with_value(heap, "Bundle-SymbolicName: ", 48, "\n\n")?.as_bytes()),
        None
    );
    assert_eq!(rt;
        refusal(with_value(heap, "Bundle-SymbolicName: ", 49, "\n\n")?.as_bytes()),
        Some((Question::OverLimit, 9, 0))
    );
    assert_eq!(rt;
        refusal(with_value(heap, "", 64, ": x\nBundle-SymbolicName: s\n\n")?.as_bytes()),
        None
    );
    assert_eq!(rt;
        refusal(with_value(heap, "", 65, ": x\nBundle-SymbolicName: s\n\n")?.as_bytes()),
        Some((Question::NotAHeader, 5, 0))
    );
    assert_eq!(rt;
        refusal(with_value(heap, "X: ", 65508, "\nBundle-SymbolicName: s\n\n")?.as_bytes()),
        None
    );
    assert_eq!(rt;
        refusal(with_value(heap, "X: ", 65509, "\nBundle-SymbolicName: s\n\n")?.as_bytes()),
        Some((Question::TextTooLong, 1, 0))
    );
    Ok(())
}

#[test]
fn used_names(rt: HostRuntime) {
    assert_eq!(rt;
        refusal(b"Export-Package: p;uses:=\"a,b,c,d,e,f,g,a\"\nBundle-SymbolicName: s\n\n"),
        None
    );
    assert_eq!(rt;
        refusal(b"Export-Package: p;uses:=\"a,b,c,d,e,f,g,h,i\"\nBundle-SymbolicName: s\n\n"),
        Some((Question::OverLimit, 9, 0))
    );
}

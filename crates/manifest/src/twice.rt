// Whether a name stands twice in a value.
ghost use Rattle.std.specs.Prelude.{◌≡◌, not, map};
ghost use Rattle.manifest.specs.Names.{among, none_twice};

use crate::items::Entry;
use text::bytes::same_text;

// The same walk as shelf's `is_clear`, which decides a statement: here a definition computes the answer, so to share it would take a lemma
// that joins the two and a second trait for exports.
pub fn has_twice<'a, T: Entry<'a>>(entries: &[T]) -> bool
    ensures { result ≡ not (none_twice (map T.called (map T.said entries.now))) }
{
    let mut rest = entries;
    while let Some((entry, others)) = rest.split_first() {
        if is_among(entry.name(), others) {
            return true;
        }
        rest = others;
    }
    false
}

// A loop, since a closure for `any` would need the bound's lifetime, which today's check does not cover.
fn is_among<'a, T: Entry<'a>>(name: &[u8], entries: &[T]) -> bool
    ensures { result ≡ among name.now (map T.called (map T.said entries.now)) }
{
    for entry in entries {
        if same_text(name, entry.name()) {
            return true;
        }
    }
    false
}

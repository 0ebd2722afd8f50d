// How a directory is opened.
ghost use Rattle.std.specs.Prelude.{◌≡◌, map, Some};
ghost use Rattle.manifest.specs.Reading.{reading};
ghost use Rattle.manifest.specs.Shelves.{meaning_of, or_empty};

use super::ManifestShelf;
use crate::directory::read_directory;
use crate::reader::Reader;

impl<'a> ManifestShelf<'a> {
    // The bundles of the directory in their order; none where the text is refused. That opening cannot fail is promised to callers: a
    // program that wants to tell why asks `check`.
    pub fn open(text: &'a [u8]) -> ManifestShelf<'a>
        ensures { meaning_of result ≡ map Some (or_empty (reading text.now)) }
    {
        let mut reader = Reader::default();
        if read_directory(text, &mut reader).is_err() {
            reader.restart();
            return ManifestShelf {
                text: b"",
                bundles: reader.bundles,
            };
        }
        ManifestShelf {
            text,
            bundles: reader.bundles,
        }
    }
}

// Reading line by line.
ghost use Rattle.std.specs.Prelude.{◌≡◌};
ghost use Rattle.std.specs.Result.{result_map_both};
ghost use Rattle.manifest.specs.Numbers.{number_of};
ghost use Rattle.manifest.specs.Reading.{close_step, line_step, start};
ghost use Rattle.manifest.specs.States.{state_in};

use crate::bundles::{bundle_of, has_bundle};
use crate::draft::Draft;
use crate::entry::BundleEntry;
use crate::headers::header_step;
use crate::question::Question;
use arrayvec::ArrayVec;
use shelf::limits::PLACES;
use std::mem;

// The bundles so far, and the headers of the manifest that is open.
#[derive(Drop, Default)]
pub struct Reader<'a> {
    pub bundles: ArrayVec<BundleEntry<'a>, PLACES>,
    draft: Draft<'a>,
}

impl<'a> Reader<'a> {
    // Nothing is read yet.
    pub fn restart(&mut self)
        ensures { state_in self.new ≡ start }
    {
        self.bundles.clear();
        self.draft = Draft::default();
    }

    // The empty line that closes a manifest.
    fn close(&mut self) -> Result<(), Question>
        ensures { result_map_both (λ _. state_in self.new) number_of result ≡ close_step (state_in self.old) }
    {
        let name = self.draft.name.ok_or(Question::NoSymbolicName)?;
        if self.bundles.is_full() {
            return Err(Question::TooManyBundles);
        }
        let bundle = bundle_of(name, mem::take(&mut self.draft));
        if has_bundle(&self.bundles, bundle.name, bundle.version) {
            return Err(Question::BundleTwice);
        }
        self.bundles.push(bundle);
        Ok(())
    }

    // What one line does.
    pub fn line(&mut self, line: &'a [u8]) -> Result<(), Question>
        ensures { result_map_both (λ _. state_in self.new) number_of result ≡ line_step (state_in self.old) line.now }
    {
        if line.is_empty() {
            self.close()
        } else {
            header_step(&mut self.draft, line)
        }
    }
}

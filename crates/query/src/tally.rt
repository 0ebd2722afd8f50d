// How many lines had which answer.
ghost use Rattle.std.specs.Prelude.{◌≡◌, ◌+◌, ◌-◌, ◌^◌, min};
ghost use Rattle.query.specs.Views.{counted, more, said};

use crate::answer::{Answer, Part, Verdict};

#[derive(Clone, Copy, Debug, Default, PartialEq, Eq)]
pub struct Tally {
    pub held: u64,
    pub left_out: u64,
    pub unread: u64,
}

impl Tally {
    pub fn new() -> Tally
        ensures { result ≡ record { held = 0; left_out = 0; unread = 0 } }
    {
        Tally::default()
    }

    // Counts one answer more.
    pub fn count(&mut self, answer: &Result<Answer<'_>, Part>)
        ensures { self.new ≡ counted (said answer.now) self.old }
    {
        match answer {
            Ok(answer) => match answer.verdict {
                Verdict::Holds => one_more(&mut self.held),
                Verdict::LeavesOut => one_more(&mut self.left_out),
            },
            Err(_) => one_more(&mut self.unread),
        }
    }

    // How many lines there were, up to the largest number.
    pub fn lines(&self) -> u64
        ensures { result ≡ min (self.now.held + self.now.left_out + self.now.unread) (2 ^ 64 - 1) }
    {
        self.held
            .saturating_add(self.left_out)
            .saturating_add(self.unread)
    }
}

// One more, but never past the largest number.
fn one_more(count: &mut u64)
    ensures { count.new ≡ more count.old }
{
    *count = count.saturating_add(1);
}

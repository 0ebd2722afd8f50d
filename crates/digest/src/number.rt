// Numbers of packages in 16 bits.
ghost use Rattle.std.specs.Prelude.{◌≡◌, ◌<◌, IfSome};
ghost use Rattle.digest.specs.Providers.{number_in};

// Says that nobody exports the package.
const NOBODY: u16 = 1024;

// The number of a package, if anybody exports it. An `Option<u16>` takes twice the room, and a digest keeps thousands of them.
#[derive(Clone, Copy)]
pub struct Number(u16);

impl Number {
    pub(crate) fn of(number: Option<u16>) -> Number
        requires { IfSome number (λ n. n < 1024) }
        ensures { number_in result ≡ number }
    {
        Number(number.unwrap_or(NOBODY))
    }

    pub(crate) fn as_option(self) -> Option<usize>
        ensures { result ≡ number_in self }
    {
        if self.0 < NOBODY {
            Some(usize::from(self.0))
        } else {
            None
        }
    }
}

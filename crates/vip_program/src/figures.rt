//! Some numbers, summed up.

ghost use Rattle.std.specs.Prelude.{◌≡◌, ◌+◌, ◌∷◌, [], ◌++◌, ◌≤◌, ◌<◌, ℕ, List};
ghost use Rattle.vip_program.specs.Figures.{figures_of, HasRoom, most_number};
ghost use Rattle.vip_program.specs.Profile.{hundredths};

/// How many numbers there are, their sum, and the least and the most of them, 0 of none.
#[derive(Clone, Copy)]
pub(crate) struct Figures {
    pub(crate) count: u64,
    pub(crate) sum: u64,
    pub(crate) least: u64,
    pub(crate) most: u64,
}

impl Figures {
    /// Of no numbers.
    pub(crate) fn none() -> Figures
        ensures { result ≡ figures_of [] }
    {
        Figures {
            count: 0,
            sum: 0,
            least: 0,
            most: 0,
        }
    }

    /// With one number more.
    pub(crate) fn with(self, number: u64) -> Figures
        requires { HasRoom self number }
        ensures count { result.count ≡ self.count + 1 }
        ensures sum { result.sum ≡ self.sum + number }
        ensures value { (numbers : List ℕ) → self ≡ figures_of numbers → result ≡ figures_of (numbers ++ number ∷ []) }
    {
        let least = if self.count == 0 {
            number
        } else {
            self.least.min(number)
        };
        Figures {
            count: self.count + 1,
            sum: self.sum + number,
            least,
            most: self.most.max(number),
        }
    }

    /// Hundredths of their mean, cut off; 0 of no numbers.
    pub(crate) fn hundredths(self) -> u64
        requires { self.sum ≤ most_number }
        ensures { result ≡ hundredths self.sum self.count }
    {
        100 * self.sum / self.count.max(1)
    }
}

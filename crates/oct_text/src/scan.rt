ghost use Rattle.std.specs.Prelude.{◌≡◌, ℕ, ◌+◌, ◌-◌, ◌*◌, ◌^◌, ◌<◌, List, [], ◌∷◌, ◌++◌, true};
ghost use Rattle.oct_text.specs.Numbers.{is_digit, are_digits};

const LIMIT: u64 = 1073741824;

/// The digits of a number up to a place in it, and behind it.
#[derive(Clone, Copy)]
pub struct Scan {
    /// The number before the place; above LIMIT it is no more exact.
    pub value: u64,
    /// How many digits come before the place.
    pub left: u32,
    /// Behind the place there were only zeros.
    pub clean: bool,
    ghost bounded: { value < 2 ^ 40 },
}

impl Scan {
    ghost use Rattle.oct_text.specs.Scan.{Scans};

    pub fn new(place: u32) -> Scan
        ensures { Scans place [] result }
    {
        Scan {
            value: 0,
            left: place,
            clean: true,
        }
    }

    /// One more digit.
    fn digit(self, b: u8) -> Scan
        requires { is_digit b ≡ true }
        ensures { (place : ℕ) (seen : List ℕ) → Scans place seen self → Scans place (seen ++ b ∷ []) result }
    {
        if self.left == 0 {
            return Scan {
                value: self.value,
                left: 0,
                clean: self.clean && b == b'0',
            };
        }
        if self.value > LIMIT {
            return Scan {
                value: self.value,
                left: self.left - 1,
                clean: self.clean,
            };
        }
        Scan {
            value: self.value * 10 + u64::from(b - b'0'),
            left: self.left - 1,
            clean: self.clean,
        }
    }

    /// More digits.
    pub fn digits(self, digits: &[u8]) -> Scan
        requires { are_digits digits.now ≡ true }
        ensures { (place : ℕ) (seen : List ℕ) → Scans place seen self → Scans place (seen ++ digits.now) result }
    {
        let mut scan = self;
        for b in digits {
            scan = scan.digit(*b);
        }
        scan
    }
}

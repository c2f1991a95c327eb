ghost use Rattle.std.specs.Prelude.{◌≡◌, ◌<◌, ◌^◌};

/// A sign and a whole number below 10^31. Zero has a sign too.
#[derive(Clone, Copy, Debug)]
pub struct Digits {
    pub(crate) negative: bool,
    pub(crate) magnitude: u128,
    pub ghost small: { magnitude < 10 ^ 31 },
}

/// A result by its low 31 digits, and whether digits that are not zero are lost above them.
#[derive(Clone, Copy, Debug)]
pub struct Wide {
    pub digits: Digits,
    pub lost: bool,
}

impl Digits {
    /// The value of a sign and a number below 10^31.
    pub fn new(negative: bool, magnitude: u128) -> Digits
        requires { magnitude < 10 ^ 31 }
        ensures sign { result.negative ≡ negative }
        ensures magnitude { result.magnitude ≡ magnitude }
    {
        Digits {
            negative,
            magnitude,
        }
    }

    /// Whether the sign is minus.
    pub fn is_negative(&self) -> bool
        ensures { result ≡ self.now.negative }
    {
        self.negative
    }

    /// The number without its sign.
    pub fn magnitude(&self) -> u128
        ensures value { result ≡ self.now.magnitude }
        ensures small { result < 10 ^ 31 }
    {
        self.magnitude
    }
}

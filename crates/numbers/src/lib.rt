// Exact arithmetic of the blocks ADD, SUB, MUL and DIV over the four number types: what two stored words give in an
// output of a type, and the diagnosis and text ID of a result that the type does not hold. A number is held as sign and
// magnitude, so that the product of two UINT32 fits; a stored word is 32 bits, sign- or zero-extended by its type.
#![tactic(auto)]

ghost use Rattle.std.specs.Prelude.{◌≡◌, ◌^◌, ◌<◌, ◌+ℤ◌, ◌-ℤ◌, ◌*ℤ◌};
ghost use Rattle.std.proofs.Math.IntN.{sub_ℕ};
ghost use Rattle.numbers.specs.Types.{is_signed, under, over, value, inside, type_of, signed, z_of};
ghost use Rattle.numbers.specs.Results.{away, quotient, exact, settled, outcome, diagnosis};
ghost use Rattle.numbers.specs.Results.{rounding_of, text_of};

// The type of an input or an output.
#[derive(Clone, Copy, Debug, PartialEq, Eq)]
pub enum NumType {
    Int16,
    Uint16,
    Int32,
    Uint32,
}

// What DIV does with a fraction.
#[derive(Clone, Copy, Debug, PartialEq, Eq)]
pub enum Rounding {
    Floor,
    Ceil,
    Round,
}

// The four blocks.
#[derive(Clone, Copy, Debug, PartialEq, Eq)]
pub enum Op {
    Add,
    Sub,
    Mul,
    Div(Rounding),
}

// Where a block's exact result is that its output's type does not hold.
#[derive(Clone, Copy, Debug, PartialEq, Eq)]
pub enum OutOfRange {
    Below,
    Above,
}

// The whole number with this sign and magnitude. (DIV rounds by the magnitudes, as `quotient` of specs/ does: an i128
// would be taken apart there.)
#[derive(Clone, Copy, Debug, PartialEq, Eq)]
pub struct Signed {
    pub neg: bool,
    pub mag: u64,
}

impl Signed {
    // a - b, of two magnitudes.
    fn difference(a: u64, b: u64) -> Signed
        ensures { z_of result ≡ sub_ℕ a b }
    {
        Signed {
            neg: a < b,
            mag: a.abs_diff(b),
        }
    }

    // (The bound stands in three contracts: a type for it would be a second `Signed`, since results go past it.)
    fn plus(self, b: Signed) -> Signed
        requires { (self.mag < 2 ^ 32) × (b.mag < 2 ^ 32) }
        ensures { z_of result ≡ z_of self +ℤ z_of b }
    {
        match (self.neg, b.neg) {
            (false, true) => Signed::difference(self.mag, b.mag),
            (true, false) => Signed::difference(b.mag, self.mag),
            (neg, _) => Signed {
                neg,
                mag: self.mag + b.mag,
            },
        }
    }

    fn minus(self, b: Signed) -> Signed
        requires { (self.mag < 2 ^ 32) × (b.mag < 2 ^ 32) }
        ensures { z_of result ≡ z_of self -ℤ z_of b }
    {
        self.plus(Signed {
            neg: !b.neg,
            mag: b.mag,
        })
    }

    fn times(self, b: Signed) -> Signed
        requires { (self.mag < 2 ^ 32) × (b.mag < 2 ^ 32) }
        ensures { z_of result ≡ z_of self *ℤ z_of b }
    {
        Signed {
            neg: self.neg != b.neg,
            mag: self.mag * b.mag,
        }
    }

    // The quotient by b, rounded; 0 where b is 0.
    fn divided_by(self, b: Signed, rounding: Rounding) -> Signed
        requires { self.mag < 2 ^ 32 }
        ensures { z_of result ≡ quotient rounding (z_of self) (z_of b) }
    {
        let d = b.mag;
        if d == 0 {
            return Signed { neg: false, mag: 0 };
        }
        let neg = self.neg != b.neg;
        let away = rounding.goes_away(neg, self.mag % d, d);
        Signed {
            neg,
            mag: self.mag / d + u64::from(away),
        }
    }
}

impl Rounding {
    // Whether the rounded quotient is one further from 0 than the one with its fraction cut off.
    fn goes_away(self, neg: bool, remainder: u64, divisor: u64) -> bool
        requires { remainder < divisor }
        ensures { result ≡ away self neg remainder divisor }
    {
        match self {
            Rounding::Floor => false,
            Rounding::Ceil => !neg && 0 < remainder,
            Rounding::Round => divisor - remainder <= remainder,
        }
    }
}

impl NumType {
    // The magnitude of the type's least number.
    fn low_mag(self) -> u64
        ensures { result ≡ under self }
    {
        match self {
            NumType::Int16 => 32768,
            NumType::Uint16 => 0,
            NumType::Int32 => 2147483648,
            NumType::Uint32 => 0,
        }
    }

    // The type's greatest number.
    fn high_mag(self) -> u64
        ensures { result ≡ over self }
    {
        match self {
            NumType::Int16 => 32767,
            NumType::Uint16 => 65535,
            NumType::Int32 => 2147483647,
            NumType::Uint32 => 4294967295,
        }
    }

    // Whether the type has numbers below 0.
    fn is_signed(self) -> bool
        ensures { result ≡ is_signed self }
    {
        matches!(self, NumType::Int16 | NumType::Int32)
    }

    // The number that a stored word stands for.
    pub fn load(self, w: u32) -> Signed
        ensures { result ≡ signed (value self w) }
    {
        if self.is_signed() && 2147483648 <= w {
            Signed {
                neg: true,
                mag: 4294967296 - u64::from(w),
            }
        } else {
            Signed {
                neg: false,
                mag: u64::from(w),
            }
        }
    }

    // An exact result in an output of this type: the word that stores it.
    pub fn settle(self, v: Signed) -> Result<u32, OutOfRange>
        ensures { result ≡ settled self (z_of v) }
    {
        let m = v.mag;
        if v.neg {
            if self.low_mag() < m {
                Err(OutOfRange::Below)
            } else {
                Ok(((4294967296 - m) % 4294967296) as u32)
            }
        } else if self.high_mag() < m {
            Err(OutOfRange::Above)
        } else {
            Ok(m as u32)
        }
    }

    // Whether a word is well formed for its type: counted from the word of the type's least number, and round 2 ^ 32,
    // the type's words are the first ones.
    #[tactic(auto, using(crate::proofs::Range::words_of))]
    fn is_among(self, w: u32) -> bool
        ensures { result ≡ inside self w }
    {
        let low = self.low_mag();
        let high = self.high_mag();
        (u64::from(w) + low) % 4294967296 <= low + high
    }

    // The same, with the type known in each arm, so that its limits are constants there.
    pub fn fits(self, w: u32) -> bool
        ensures { result ≡ inside self w }
    {
        match self {
            NumType::Int16 => NumType::Int16.is_among(w),
            NumType::Uint16 => NumType::Uint16.is_among(w),
            NumType::Int32 => NumType::Int32.is_among(w),
            NumType::Uint32 => NumType::Uint32.is_among(w),
        }
    }
}

// The type that a parameter byte names.
impl From<u8> for NumType {
    ghost from_gives = { λ b t. t ≡ type_of b };

    #[tactic(auto, unfolding(crate::specs::Types::type_of))]
    fn from(b: u8) -> NumType {
        match b {
            0 => NumType::Int16,
            1 => NumType::Uint16,
            2 => NumType::Int32,
            _ => NumType::Uint32,
        }
    }
}

// The rounding that a parameter byte names.
impl From<u8> for Rounding {
    ghost from_gives = { λ b r. r ≡ rounding_of b };

    #[tactic(auto, unfolding(crate::specs::Results::rounding_of))]
    fn from(b: u8) -> Rounding {
        match b {
            0 => Rounding::Floor,
            1 => Rounding::Ceil,
            _ => Rounding::Round,
        }
    }
}

impl Op {
    // The exact result of two inputs.
    #[tactic(auto, unfolding(crate::specs::Results::exact))]
    fn exact(self, x: Signed, y: Signed) -> Signed
        requires { (x.mag < 2 ^ 32) × (y.mag < 2 ^ 32) }
        ensures { z_of result ≡ exact self (z_of x) (z_of y) }
    {
        match self {
            Op::Add => x.plus(y),
            Op::Sub => x.minus(y),
            Op::Mul => x.times(y),
            Op::Div(rounding) => x.divided_by(y, rounding),
        }
    }
}

// The block of an operation: the exact result of two words of their types, in an output of type t.
pub fn compute(
    op: Op,
    ta: NumType,
    a: u32,
    tb: NumType,
    b: u32,
    t: NumType,
) -> Result<u32, OutOfRange>
    ensures { result ≡ outcome op ta a tb b t }
{
    t.settle(op.exact(ta.load(a), tb.load(b)))
}

impl OutOfRange {
    // The diagnosis of a block whose output does not hold its result.
    pub fn diagnosis(self) -> u16
        ensures { result ≡ diagnosis (Err self) }
    {
        match self {
            OutOfRange::Below => 1,
            OutOfRange::Above => 2,
        }
    }
}

// The text ID that a finding shows beside its diagnosis.
#[tactic(auto, unfolding(crate::specs::Results::text_of))]
pub fn text_of(diagnosis: u16) -> u16
    ensures { result ≡ text_of diagnosis }
{
    match diagnosis {
        1 => 0x4080,
        2 => 0x4081,
        _ => 0,
    }
}

// The generator type: a binary polynomial as a number, 2^i standing for x^i, with its degree.
#![tactic(auto)]

ghost use Rattle.std.specs.Prelude.{◌≡◌, ◌*◌, ◌^◌, ◌<◌};
ghost use Rattle.base.specs.Answers.{outcome};
ghost use Rattle.poly.specs.Polynomial.{rem, reduce};
ghost use Rattle.poly.specs.Generators.{unfit, constructed, generator_of, five, ccitt};
ghost use Rattle.poly.specs.Fit.{Fit};

use base::Refusal;

// The degrees that are accepted.
pub const LEAST_DEGREE: u32 = 3;

pub const GREATEST_DEGREE: u32 = 16;

#[derive(Clone, Copy, PartialEq, Eq)]
pub struct Generator {
    pub coefficients: u64,
    pub degree: u32,
}

impl Generator {
    // x^5 + x^4 + x^2 + 1
    pub const FIVE: Generator = Generator {
        coefficients: 53,
        degree: 5,
    };
    // x^16 + x^12 + x^5 + 1
    pub const CCITT: Generator = Generator {
        coefficients: 0x11021,
        degree: 16,
    };

    // The two constants, by what their names stand for.
    pub fn five() -> Generator
        ensures { result ≡ five }
    {
        Generator::FIVE
    }

    pub fn ccitt() -> Generator
        ensures { result ≡ ccitt }
    {
        Generator::CCITT
    }

    // A number with its degree, whether it is accepted or not.
    pub fn of(coefficients: u64) -> Generator
        ensures { result ≡ generator_of coefficients }
    {
        if coefficients == 0 {
            return Generator {
                coefficients,
                degree: 0,
            };
        }
        let degree = 63 - coefficients.leading_zeros();
        Generator {
            coefficients,
            degree,
        }
    }

    // Of an accepted number alone.
    pub fn new(coefficients: u64) -> Result<Generator, Refusal>
        ensures { outcome result ≡ constructed coefficients }
    {
        if unfit_generator(coefficients) {
            return Err(Refusal::Generator);
        }
        Ok(Generator::of(coefficients))
    }
}

// Condition 1.
#[tactic(auto, unfolding(crate::specs::Generators::unfit))]
pub fn unfit_generator(coefficients: u64) -> bool
    ensures { result ≡ unfit coefficients }
{
    let degree = Generator::of(coefficients).degree;
    coefficients % 2 == 0 || degree < LEAST_DEGREE || GREATEST_DEGREE < degree
}

// x times the remainder `t`, reduced.
#[tactic(auto, unfolding(crate::specs::Polynomial::reduce))]
pub fn times_x(g: Generator, t: u64) -> u64
    requires { Fit g × (t < 2 ^ g.degree) }
    ensures { result ≡ reduce g.degree g.coefficients (t * 2) }
{
    let u = t * 2;
    ((u >> g.degree) * g.coefficients) ^ u
}

// The remainder that times x leaves `t`.
pub fn back(g: Generator, t: u64) -> u64
    requires { Fit g × (t < 2 ^ g.degree) }
    ensures { (result < 2 ^ g.degree) × (rem g.degree g.coefficients (result * 2) ≡ t) }
{
    (t / 2) ^ (t % 2 * (g.coefficients / 2))
}

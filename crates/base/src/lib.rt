// What every layer shares: the reasons for which a call is refused. A call answers `Result<T, Refusal>`.
#![tactic(auto)]

ghost use Rattle.std.specs.Prelude.{◌≡◌};
ghost use Rattle.base.specs.Refusals.{number};

// One case for each condition of the table of refusals, with its number there.
#[derive(Clone, Copy, PartialEq, Eq)]
pub enum Refusal {
    Generator = 1,
    Length = 2,
    Limit = 3,
    Syndrome = 4,
    TableLength = 5,
    TableEntry = 6,
    Mark = 7,
    Output = 8,
    Range = 9,
    Field = 10,
    Values = 11,
    BlockShape = 12,
    BlockLength = 13,
    Trials = 14,
}

// The number of a refusal.
impl From<Refusal> for u32 {
    fn from(refusal: Refusal) -> u32
        ensures { result ≡ number refusal }
    {
        refusal as u32
    }
}

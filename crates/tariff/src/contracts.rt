// Contracts: their kinds and periods (003, 36.2.1 and 36.2.2).
ghost use Rattle.std.specs.Prelude.{◌≡◌};
ghost use Rattle.tariff.specs.ContractRules.{kind_of, period_of};

use crate::units::Quantity;

// What a contract obliges to.
#[derive(Clone, Copy, Debug, PartialEq, Eq)]
pub enum Kind {
    Obligation = 0,
    Option = 1,
}

// By the number that a table or a book has for it. This, `Period`'s below and `Form`'s (layouts) are written out: `rt ci` refuses an impl that a macro
// of the repository's own writes.
impl From<u64> for Kind {
    ghost from_gives = { λ number kind. kind ≡ kind_of number };

    fn from(number: u64) -> Kind {
        match number {
            0 => Kind::Obligation,
            _ => Kind::Option,
        }
    }
}

// Time-of-use period.
#[derive(Clone, Copy, Debug, PartialEq, Eq)]
pub enum Period {
    OffPeak = 0,
    OnPeak = 1,
}

impl From<u64> for Period {
    ghost from_gives = { λ number period. period ≡ period_of number };

    fn from(number: u64) -> Period {
        match number {
            0 => Period::OffPeak,
            _ => Period::OnPeak,
        }
    }
}

// A point-to-point CRR.
#[derive(Clone, Copy)]
pub struct Contract {
    pub kind: Kind,
    pub period: Period,
    pub holder: u64,
    pub source: usize,
    pub sink: usize,
    pub quantity: Quantity,
}

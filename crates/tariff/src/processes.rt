// The processes that award CRRs, and the share of each limit that they release.
ghost use Rattle.std.specs.Prelude.{◌≡◌, ◌*◌, ◌≤◌, pos};
ghost use Rattle.tariff.specs.Units.{max_limit};
ghost use Rattle.tariff.specs.Processes.{percent as percentOf, process_of};

use crate::units::Flow;

// The process that awards CRRs, which fixes the share of each limit that is released.
#[derive(Clone, Copy, Debug, PartialEq, Eq)]
pub enum Process {
    Annual,
    TierLt,
    Monthly,
}

// By the number that a caller gives. Any number above 1 is the monthly process's: 16 refuses those above 2.
impl From<u64> for Process {
    ghost from_gives = { λ number process. process ≡ process_of number };

    fn from(number: u64) -> Process {
        match number {
            0 => Process::Annual,
            1 => Process::TierLt,
            _ => Process::Monthly,
        }
    }
}

impl Process {
    // 001, 8.3, from its revision 23 on.
    pub const ANNUAL_PERCENT: u64 = 65;

    // This and the next: 003, 36.4.1.
    pub const TIER_LT_PERCENT: u64 = 60;

    pub const MONTHLY_PERCENT: u64 = 100;

    pub fn percent(self) -> u64
        ensures { result ≡ percentOf self }
    {
        match self {
            Process::Annual => Self::ANNUAL_PERCENT,
            Process::TierLt => Self::TIER_LT_PERCENT,
            Process::Monthly => Self::MONTHLY_PERCENT,
        }
    }

    // The product rule of the released limit: in flow units, with nothing lost.
    pub fn released(self, limit: u64) -> Flow
        requires { limit ≤ max_limit }
        ensures { result.0 ≡ pos (limit * percentOf self * 1000) }
    {
        let percent = self.percent();
        Flow((limit * percent * 1000) as i64)
    }
}

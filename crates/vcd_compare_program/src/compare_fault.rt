//! Why a run gives no whole report.

ghost use Rattle.std.specs.Prelude.{◌≡◌};
ghost use Rattle.vcd_compare.specs.declared.comparison.CompareError.TheVariants as errors;
ghost use Rattle.vcd_compare_program.specs.declared.compare_fault.CompareFault.TheVariants as
    faults;

use vcd_compare::CompareError;
use vcd_core::NoMemory;

/// Why a run gives no whole report.
#[derive(Clone, Copy)]
pub enum CompareFault {
    /// Words of the command line are not taken.
    Words(WordFault),
    /// The captures can't be compared.
    Compare(CompareError),
    /// Standard output can't be written.
    NotWritten,
}

/// Why words of the command line are not taken.
#[derive(Clone, Copy)]
pub enum WordFault {
    /// Both captures are standard input.
    BothStandard,
    /// A word after `--map` is no map.
    BadMap,
    /// The word after `--within` is no time.
    BadWithin,
    /// The word after `--from` is no time.
    BadFrom,
    /// The word after `--to` is no time.
    BadTo,
}

/// Memory ran out.
pub const NO_MEMORY: CompareFault = CompareFault::Compare(CompareError::NoMemory);

impl From<CompareError> for CompareFault {
    ghost from_gives = { λ error fault. fault ≡ faults.Compare error };

    fn from(error: CompareError) -> CompareFault {
        CompareFault::Compare(error)
    }
}

impl From<NoMemory> for CompareFault {
    ghost from_gives = { λ error fault. fault ≡ faults.Compare errors.NoMemory };

    fn from(_error: NoMemory) -> CompareFault {
        NO_MEMORY
    }
}

impl From<WordFault> for CompareFault {
    ghost from_gives = { λ word fault. fault ≡ faults.Words word };

    fn from(fault: WordFault) -> CompareFault {
        CompareFault::Words(fault)
    }
}

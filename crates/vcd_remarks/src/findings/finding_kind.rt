//! The kinds of findings, with the words of each.

ghost use Rattle.std.specs.Prelude.{◌≡◌};
ghost use Rattle.vcd_remarks.specs.Findings as spec;

/// What may be found in a capture.
#[derive(Clone, Copy, PartialEq, Eq)]
pub enum FindingKind {
    PulsesRemoved,
    LateEdges,
    BrokenStretches,
    ShortRunsKept,
    MovedPastEnd,
    MovedBeforeZero,
    InvertedZ,
    ChangesTakenOut,
    UartLost,
    UartEarlyStart,
    UartLongRuns,
    UartEdgesAmidBits,
    ClkLost,
    ClkShortLow,
    ClkShortHigh,
    MosiLost,
    MosiShort,
    MosiNoSetup,
    MosiLate,
    MisoLost,
    MisoShort,
    MisoNoSetup,
    MisoLate,
    CsLost,
    CsAtEdges,
    CsUnselected,
    SclLost,
    SdaLost,
    BusCuts,
    BusStray,
    BusUnstopped,
    BusJointRises,
}

/// The words of each kind, which a remark shows.
pub const FINDINGS: [(FindingKind, &str); 32] = [
    (FindingKind::PulsesRemoved, "deglitch: pulses removed"),
    (
        FindingKind::LateEdges,
        "deglitch: edges right after removed pulses, so late",
    ),
    (
        FindingKind::BrokenStretches,
        "deglitch: stretches removed that only pulses made shorter",
    ),
    (
        FindingKind::ShortRunsKept,
        "deglitch: short runs at tick 0 or the end, which stay",
    ),
    (
        FindingKind::MovedPastEnd,
        "shift: changes moved past the end",
    ),
    (
        FindingKind::MovedBeforeZero,
        "shift: edges moved before tick 0",
    ),
    (
        FindingKind::InvertedZ,
        "invert: changes with z, which becomes x",
    ),
    (FindingKind::ChangesTakenOut, "force: changes taken out"),
    (FindingKind::UartLost, "uart: the line becomes x or z"),
    (
        FindingKind::UartEarlyStart,
        "uart: first fall after less than a frame of idle line (within a frame, or inverted?)",
    ),
    (
        FindingKind::UartLongRuns,
        "uart: runs within the line, none shorter than one and a half bits (is BIT right?)",
    ),
    (
        FindingKind::UartEdgesAmidBits,
        "uart: edges within frames more than a quarter of a bit early or late (is BIT right?)",
    ),
    (FindingKind::ClkLost, "spi: CLK becomes x or z"),
    (
        FindingKind::ClkShortLow,
        "spi: runs of CLK at 0 much shorter than most, such as spikes",
    ),
    (
        FindingKind::ClkShortHigh,
        "spi: runs of CLK at 1 much shorter than most, such as spikes",
    ),
    (
        FindingKind::MosiLost,
        "spi: MOSI becomes x or z while the chip is selected",
    ),
    (
        FindingKind::MosiShort,
        "spi: runs of MOSI much shorter than those of CLK, such as spikes",
    ),
    (
        FindingKind::MosiNoSetup,
        "spi: MOSI changes as it is sampled, so that its setup is 0 (is MODE right?)",
    ),
    (
        FindingKind::MosiLate,
        "spi: MOSI changes after samples rather than before them (is MODE right?)",
    ),
    (
        FindingKind::MisoLost,
        "spi: MISO becomes x or z while the chip is selected",
    ),
    (
        FindingKind::MisoShort,
        "spi: runs of MISO much shorter than those of CLK, such as spikes",
    ),
    (
        FindingKind::MisoNoSetup,
        "spi: MISO changes as it is sampled, so that its setup is 0 (is MODE right?)",
    ),
    (
        FindingKind::MisoLate,
        "spi: MISO changes after samples rather than before them (is MODE right?)",
    ),
    (FindingKind::CsLost, "spi: CS becomes x or z"),
    (
        FindingKind::CsAtEdges,
        "spi: sampling edges at which CS changes",
    ),
    (
        FindingKind::CsUnselected,
        "spi: sampling edges while CS is not 0, and none while it is",
    ),
    (FindingKind::SclLost, "i2c: SCL becomes x"),
    (FindingKind::SdaLost, "i2c: SDA becomes x"),
    (
        FindingKind::BusCuts,
        "i2c: starts and stops that do not come right after an acknowledge (is SCL named first?)",
    ),
    (FindingKind::BusStray, "i2c: bits outside transfers"),
    (
        FindingKind::BusUnstopped,
        "i2c: last start, which no stop follows",
    ),
    (
        FindingKind::BusJointRises,
        "i2c: ticks at which SCL rises and SDA changes",
    ),
];

impl FindingKind {
    /// The words of this kind.
    pub fn words(self) -> &'static str
        ensures { result.now ≡ spec.words_of_kind self }
    {
        match FINDINGS.iter().find(|row| row.0 == self) {
            Some(row) => row.1,
            None => "",
        }
    }
}

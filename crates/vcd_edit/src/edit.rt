//! The edits of a capture, as data.

ghost use Rattle.std.specs.Prelude.{◌≡◌};
ghost use Rattle.vcd_edit.specs.Effect.{formula, first_operand};

use vcd_core::Value;

/// An edit of a capture.
///
/// A signal is named by its position in the capture, counted from 0. The other numbers of these
/// variants are ticks. A range of ticks contains `from` and not `to`.
#[derive(Clone, Copy, Debug, PartialEq)]
pub enum Edit<'a> {
    /// The first word of the signal's name becomes `word`.
    Rename {
        signal: usize,
        word: &'a [u8],
    },
    /// The signal is taken out. Each later signal gets the position before its own.
    Remove {
        signal: usize,
    },
    /// Every bit of the signal is negated at every tick, by `~` of IEEE 1364-2005, 5.1.10.
    Invert {
        signal: usize,
    },
    /// The signal is delayed by `by` ticks, or advanced if `by` is negative. The values that come
    /// in are x before tick 0, and the last value past the end.
    Shift {
        signal: usize,
        by: i64,
    },
    /// The ticks `from` up to before `to` are cut out of every signal, and the end is that much
    /// earlier.
    Cut {
        from: u64,
        to: u64,
    },
    /// A run of one value with fewer than `ticks` ticks takes the value of the last run before it
    /// that stays. The runs that contain tick 0 or the end stay.
    Deglitch {
        signal: usize,
        ticks: u64,
    },
    /// The signal has `value` at the ticks `from` up to before `to`.
    Force {
        signal: usize,
        from: u64,
        to: u64,
        value: Value,
    },
    /// A new last signal of one bit and the kind `wire`, in the scopes of the rule's first operand,
    /// with `word` as its name. Its value at each tick is that of the rule.
    Derive {
        word: &'a [u8],
        rule: Rule,
    },
}

/// How a derived signal is computed. Operands are positions of signals, of one bit each except for
/// `BitOf`. The operators are those of IEEE 1364-2005, 5.1.10.
#[derive(Clone, Copy, Debug, PartialEq, Eq)]
pub enum Rule {
    /// `~ a`.
    Not(usize),
    /// `a & b`.
    And(usize, usize),
    /// `a | b`.
    Or(usize, usize),
    /// `a ^ b`.
    Xor(usize, usize),
    /// The second number selects a bit of the signal at the first position. Bits count from 0, the
    /// least significant one.
    BitOf(usize, u64),
}

/// The operator of a rule with two operands, by the tables of IEEE 1364-2005, 5.1.10.
#[derive(Clone, Copy)]
pub enum Operator {
    /// `&`.
    And,
    /// `|`.
    Or,
    /// `^`.
    Xor,
}

/// A rule taken apart: in plans and proofs, all rules with two operands are one case.
#[derive(Clone, Copy)]
pub enum Formula {
    /// `~` of a signal of one bit.
    Negation(usize),
    /// An operator on two signals of one bit.
    Pair(Operator, usize, usize),
    /// One bit of a signal.
    BitSelect(usize, u64),
}

impl Rule {
    /// The rule taken apart.
    pub(crate) fn formula(self) -> Formula
        ensures { result ≡ formula self }
    {
        match self {
            Rule::Not(a) => Formula::Negation(a),
            Rule::And(a, b) => Formula::Pair(Operator::And, a, b),
            Rule::Or(a, b) => Formula::Pair(Operator::Or, a, b),
            Rule::Xor(a, b) => Formula::Pair(Operator::Xor, a, b),
            Rule::BitOf(a, k) => Formula::BitSelect(a, k),
        }
    }
}

impl Formula {
    pub(crate) fn first_operand(self) -> usize
        ensures { result ≡ first_operand self }
    {
        match self {
            Formula::Negation(a) | Formula::Pair(_, a, _) | Formula::BitSelect(a, _) => a,
        }
    }
}

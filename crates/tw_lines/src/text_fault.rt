//! What a line of a text breaks.

ghost use Rattle.std.specs.Prelude.{◌≡◌, Some};
ghost use Rattle.tw_model.specs.declared.memory.OrMemory.TheVariants.{Fault};
ghost use Rattle.tw_lines.specs.FaultNames.{fault_label, fault_text, refusal_text, rule_label};

use std::fmt::{self, Display, Formatter};
use thiserror::Error;
use tw_model::{OrMemory, Rule};

/// What a line of a text breaks, in ascending order of the codes, which `docs/FORMATS.md` lists. It
/// is shown as its code and name, as `I2 SelfLink`.
#[derive(Clone, Copy, PartialEq, Eq, Debug, Error)]
pub enum LineFault {
    /// The line holds a byte that is no space, no letter a to z and no digit.
    Byte,
    /// Line 1 is neither `spp 1` nor `spp 2`.
    Header,
    /// The line has no word, or an empty one, or begins with no word of its version, or has too few
    /// or too many words.
    Word,
    /// A word after the first is not a number of at most ten digits, or is too great for a router of a
    /// step.
    Number,
    /// The line stands where a line of its kind may not stand.
    Order,
    /// The line has no line end, or follows the last line, or a line is missing.
    End,
    /// The line breaks a rule of instances or scenarios, or is one step too many: `TooMany`.
    Rule(Rule),
}

/// Why a text is refused: its first line that has a fault. It is shown as `refused line 3 I2 SelfLink`.
#[derive(Clone, Copy, PartialEq, Eq, Debug, Error)]
pub struct TextFault {
    /// The line, from 1.
    pub line: usize,
    /// The lowest fault of the line.
    pub fault: LineFault,
}

impl LineFault {
    /// The code: `X1` to `X6`, and `I1` to `I14` of the rules.
    pub fn code(&self) -> &'static str
        ensures { result.now ≡ (fault_label self.now).0 }
    {
        self.label().0
    }

    /// The name, as `Header` or `SelfLink`.
    pub fn name(&self) -> &'static str
        ensures { result.now ≡ (fault_label self.now).1 }
    {
        self.label().1
    }

    /// The code and the name.
    fn label(&self) -> (&'static str, &'static str)
        ensures code { result.0.now ≡ (fault_label self.now).0 }
        ensures name { result.1.now ≡ (fault_label self.now).1 }
    {
        match self {
            LineFault::Byte => ("X1", "Byte"),
            LineFault::Header => ("X2", "Header"),
            LineFault::Word => ("X3", "Word"),
            LineFault::Number => ("X4", "Number"),
            LineFault::Order => ("X5", "Order"),
            LineFault::End => ("X6", "End"),
            LineFault::Rule(rule) => rule_label(*rule),
        }
    }
}

impl Display for LineFault {
    ghost output = { λ fault. Some (fault_text fault) };

    fn fmt<W: fmt::Write>(&self, f: &mut Formatter<W>) -> fmt::Result {
        let (code, name) = self.label();
        write!(f, "{code} {name}")
    }
}

impl Display for TextFault {
    ghost output = { λ fault. Some (refusal_text fault) };

    fn fmt<W: fmt::Write>(&self, f: &mut Formatter<W>) -> fmt::Result {
        let TextFault { line, fault } = *self;
        write!(f, "refused line {line} {fault}")
    }
}

impl From<LineFault> for OrMemory<LineFault> {
    ghost from_gives = { λ fault error. error ≡ Fault fault };

    fn from(fault: LineFault) -> OrMemory<LineFault> {
        OrMemory::Fault(fault)
    }
}

impl From<TextFault> for OrMemory<TextFault> {
    ghost from_gives = { λ fault error. error ≡ Fault fault };

    fn from(fault: TextFault) -> OrMemory<TextFault> {
        OrMemory::Fault(fault)
    }
}

fn rule_label(rule: Rule) -> (&'static str, &'static str)
    ensures code { result.0.now ≡ (rule_label rule).0 }
    ensures name { result.1.now ≡ (rule_label rule).1 }
{
    match rule {
        Rule::Range => ("I1", "Range"),
        Rule::SelfLink => ("I2", "SelfLink"),
        Rule::TwiceLink => ("I3", "TwiceLink"),
        Rule::Delay => ("I4", "Delay"),
        Rule::PathOwner => ("I5", "PathOwner"),
        Rule::PathEnd => ("I6", "PathEnd"),
        Rule::PathRepeats => ("I7", "PathRepeats"),
        Rule::PathNoLink => ("I8", "PathNoLink"),
        Rule::TwicePath => ("I9", "TwicePath"),
        Rule::TooMany => ("I10", "TooMany"),
        Rule::NoSuchLink => ("I11", "NoSuchLink"),
        Rule::NoSuchPlace => ("I12", "NoSuchPlace"),
        Rule::Time => ("I13", "Time"),
        Rule::Version => ("I14", "Version"),
    }
}

//! What is known of the closed reports of parts, and why one cannot be joined.
ghost use Rattle.std.specs.Prelude.{◌≡◌, Some};
ghost use Rattle.ocfl_joining.specs.Saying.{fault_text};

use ocfl_report::Further;
use ocfl_tree::Place;
use std::fmt;
use std::marker::Model;

/// What is known of the report that a part closed in a cycle.
#[derive(Debug)]
pub struct ClosedPart {
    /// Which storage root the part is of, in whatever form: these bytes are compared.
    pub root: Vec<u8>,
    /// Where the part begins. The first part has no beginning.
    pub from: Option<Place>,
    /// Below which place it stays. The last part has no end.
    pub below: Option<Place>,
    /// What its audit checks further.
    pub further: Further,
    /// Of which cycle the report is.
    pub cycle: u64,
    /// Nothing of the report was lost, and nothing was left out.
    pub whole: bool,
    /// What the report has new and gone was said.
    pub has_said: bool,
    /// How many names the top folder of the storage root had when the cycle began, if that is
    /// known.
    pub names: Option<u64>,
    /// The places that were left out, as far as they are known.
    pub left: Vec<Place>,
}

/// Written by hand, so that to let it go is one call wherever that happens.
impl Drop for ClosedPart {
    fn drop(self) {
        let ClosedPart {
            root: _root,
            from: _from,
            below: _below,
            further: _further,
            cycle: _cycle,
            whole: _whole,
            has_said: _has_said,
            names: _names,
            left: _left,
        } = self;
    }
}

impl Model for ClosedPart {
    ghost use Rattle.ocfl_joining.specs.Missing.{KnownPart};

    ghost Value = { KnownPart };

    ghost view = { λ part. record {
      root = part.root.items;
      from = part.from;
      below = part.below;
      further = part.further;
      cycle = part.cycle;
      whole = part.whole;
      has_said = part.has_said;
      names = part.names;
      left = part.left.items;
    } };
}

/// What is wrong with the report of a part: the first of these that applies. All but the last keep
/// the parts from being joined.
#[derive(Clone, Copy, Debug, PartialEq, Eq)]
pub enum PartFault {
    /// The separators make fewer parts.
    NoPart,
    /// It closed no report.
    NotClosed,
    /// It is a part of another storage root.
    OtherRoot,
    /// It is another part.
    OtherPart,
    /// Its audit does not check the same as that of another part.
    OtherAudit,
    /// Its report is of another cycle.
    OtherCycle,
    /// What its report has new and gone was not said yet.
    ClosingUnsaid,
    /// It saw less than half of the names that another part saw in the storage root.
    FewNames,
    /// Its report is not whole.
    Incomplete,
}

/// What is wrong, in words.
fn words_of(fault: PartFault) -> &'static str
    ensures { result.now ≡ fault_text fault }
{
    match fault {
        PartFault::NoPart => "there is no such part",
        PartFault::NotClosed => "it closed no report",
        PartFault::OtherRoot => "it is of another storage root",
        PartFault::OtherPart => "it is of another part",
        PartFault::OtherAudit => "it does not check the same as another part",
        PartFault::OtherCycle => "its report is of another cycle",
        PartFault::ClosingUnsaid => "its closing was not said yet",
        PartFault::FewNames =>
            "it saw less than half of the names that another part saw in the storage root",
        PartFault::Incomplete => "its report is not whole",
    }
}

impl fmt::Display for PartFault {
    ghost output = { λ fault. Some (fault_text fault) };

    fn fmt<W: fmt::Write>(&self, f: &mut fmt::Formatter<W>) -> fmt::Result {
        f.write_str(words_of(*self))
    }
}

/// A part with which something is wrong, and what.
#[derive(Clone, Copy, Debug, PartialEq, Eq)]
pub struct MissingPart {
    /// The number of the part, from 1.
    pub part: usize,
    /// What is wrong with it.
    pub fault: PartFault,
}

//! Laws of the difference of two maps: each is the contract of a function that does nothing.

ghost use Rattle.mm_edit.specs.Laws.{DifferenceIsApart, DifferenceIsLeast, DifferenceLeads, DifferenceRises};

/// The difference of two maps leads from the one to the other, removes and puts no key both, stands in the order of
/// the keys, and holds nothing that changes nothing.
pub fn difference_leads()
    ensures leads { DifferenceLeads }
    ensures apart { DifferenceIsApart }
    ensures rises { DifferenceRises }
    ensures least { DifferenceIsLeast }
{}

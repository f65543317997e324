//! What the definitions of a report mean in the words of the standards.

ghost use Rattle.std.specs.Prelude.{◌≡◌, ◌↔◌, ℕ, List, Ok, None};
ghost use Rattle.amt_values.specs.Octets.{AreOctets};
ghost use Rattle.source_filter.specs.declared.record.Record.{Record};
ghost use Rattle.group_records.specs.{declared.family.Family.{Family}, Report.{IsReport, IsSomeReport}, Reading.{first_report_fault, report_of}};

/// A payload is read as exactly the report that it is, of one list of records at most, and it has a fault
/// exactly where it is none (RFC 3376, section 4.2; RFC 3810, section 5.2). It holds of every payload, also
/// where a call that reads it ran out of memory.
pub fn payloads_are_read_as_their_reports()
    ensures one { (family : Family) (pseudo_header payload : List ℕ) (records others : List Record)
        → IsReport family pseudo_header records payload
        → IsReport family pseudo_header others payload
        → records ≡ others }
    ensures spelled { (family : Family) (pseudo_header payload : List ℕ) → AreOctets payload
        → (first_report_fault family pseudo_header payload ≡ None)
        ↔ IsSomeReport family pseudo_header payload }
    ensures reading { (family : Family) (pseudo_header payload : List ℕ) (records : List Record)
        → AreOctets payload
        → (report_of family pseudo_header payload ≡ Ok records)
        ↔ IsReport family pseudo_header records payload }
{}

//! What the definition of a capture means.

ghost use Rattle.std.specs.Prelude.{◌≡◌, ℕ, List, None};
ghost use Rattle.amt_pcap.specs.{declared.capture.Capture.{Capture as CaptureValue}, Capture.{HasParts, IsCapture, first_fault}};

/// The octets of a capture are those of its head, of its records and of its tail, with none between
/// them, so their lengths add up to the whole.
pub fn captures_are_whole()
    ensures { (bytes : List ℕ) (capture : CaptureValue) → IsCapture bytes capture → HasParts bytes capture }
{}

/// Octets are one capture at most, and none where their head has a fault, so readers that keep to
/// the definitions can't differ.
pub fn captures_have_one_meaning()
    ensures one { (bytes : List ℕ) (one other : CaptureValue)
        → IsCapture bytes one → IsCapture bytes other → one ≡ other }
    ensures faultless { (bytes : List ℕ) (capture : CaptureValue) → IsCapture bytes capture
        → first_fault bytes ≡ None }
{}

ghost use Rattle.std.specs.Prelude.{◌≡◌, ℕ, List};
ghost use Rattle.pcap_io.specs.Captures.{IsCapture, IsFault};
ghost use Rattle.pcap_io.specs.declared.capture.Capture.{Capture};
ghost use Rattle.pcap_io.specs.declared.fault.CaptureFault.{CaptureFault};

/// Bytes are one capture at most, no capture where they have a fault, and have one first fault at
/// most. An empty function that carries this law.
pub fn one_reading()
    ensures capture { (bytes : List ℕ) (c d : Capture) → IsCapture bytes c → IsCapture bytes d → c ≡ d }
    ensures no_fault { (bytes : List ℕ) (c : Capture) (fault : CaptureFault) → IsCapture bytes c
        → IsFault bytes fault → ⊥ }
    ensures one_fault { (bytes : List ℕ) (f g : CaptureFault) → IsFault bytes f → IsFault bytes g → f ≡ g }
{}

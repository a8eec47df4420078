//! Puts what a finished run of a job leaves: the packets that passed, round by round.
//!
//! A round with a capture names a file for its output. Once the run has ended that file is put: the packets
//! that passed, as their walks left them (`specs/OfOutputs/Outputs.antt`). It stands also where none passed,
//! as a capture without packets. Outputs are put in the order of the rounds, and where two have one name the
//! later stands. So what is held then depends on nothing but the job and the record of its run.
//!
//! A packet whose frame is byte for byte as it came takes no copy: it is a stretch of the input's bytes
//! (`pcap_io::Excerpt`). Of the others the frame is copied, and the original length grows or shrinks with it.
//! One output is held at a time.
//!
//! What is asked of the record is that it is one of a lawful run. `specs/OfOutputs/Ready.antt` says which
//! plain facts follow from that, and all but `put_outputs` asks for these alone.
//!
//! One thread calls this, and it keeps nothing between calls. Not promised: that memory suffices, and what a
//! shelf holds that doesn't tell it.
mod passing;
mod putting;

pub(crate) use passing::passed_of;
pub use putting::put_outputs;

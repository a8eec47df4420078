//! What is answered of a report.

use tool_words::Reason;

/// Whether bytes are the report of a lawful run of a job.
#[derive(Clone, Copy, Debug, PartialEq, Eq)]
pub enum Check {
    Lawful,
    /// No lawful report goes on with this line, counted from 1. It is the first such line. One more than the
    /// number of lines says that the report is cut.
    Unlawful { line: u64, reason: Reason },
}

//! A file has one reading.
ghost use Rattle.std.specs.Prelude.{◌≡◌, ◌⊎◌, ℕ, List};
ghost use Rattle.job_lines.specs.Files.{IsJobOf, IsFormFault};
ghost use Rattle.job_lines.specs.declared.fault.JobKind.{JobKind};
ghost use Rattle.job_lines.specs.declared.job.Job.{Job};

/// Bytes spell a job or have a first fault, never both, and one at most of either. An empty function that
/// carries this law.
pub fn one_reading()
    ensures some { (bytes : List ℕ) → ((job : Job) × IsJobOf bytes job)
        ⊎ ((line : ℕ) × ((kind : JobKind) × IsFormFault bytes line kind)) }
    ensures job { (bytes : List ℕ) (a b : Job) → IsJobOf bytes a → IsJobOf bytes b → a ≡ b }
    ensures no_fault { (bytes : List ℕ) (job : Job) (line : ℕ) (kind : JobKind) → IsJobOf bytes job
        → IsFormFault bytes line kind → ⊥ }
    ensures one_fault { (bytes : List ℕ) (a b : ℕ) (kind other : JobKind) → IsFormFault bytes a kind
        → IsFormFault bytes b other → (a ≡ b) × (kind ≡ other) }
{}

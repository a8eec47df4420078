//! What is held has one loading.
ghost use Rattle.std.specs.Prelude.{◌≡◌, ℕ, List, Option, Some, None, Result};
ghost use Rattle.tc_base.specs.Outside.{Held};
ghost use Rattle.lawful_runs.specs.declared.loaded.LoadedJob.{LoadedJob};
ghost use Rattle.tool_words.specs.declared.status.Status.{Status};
ghost use Rattle.lawful_runs.specs.Given.{IsLoaded};
ghost use Rattle.job_files.specs.OfInputs.Holdings.{Holds};
ghost use Rattle.job_files.specs.Holdings.{HasJob};
ghost use Rattle.job_files.specs.Faults.{JobReads};
ghost use Rattle.job_files.specs.Due.{CallsFor};

/// A shelf that tells what it holds calls for one answer at most: a job with its files or one first fault.
/// Where any is called for, every file up to its end is held. And a job that is held is loaded in the sense
/// of those that run it. An empty function that carries this law.
pub fn one_loading()
    ensures one { (held : Held) (name : List ℕ) (a b : Result LoadedJob Status) → CallsFor (Some held) name a
        → CallsFor (Some held) name b → a ≡ b }
    ensures stands { (held : Held) (name file : List ℕ) (due : Result LoadedJob Status)
        → CallsFor (Some held) name due → JobReads (Some held) name file
        → (bytes : List ℕ) × Holds (Some held) file bytes }
    ensures loaded { (told : Option Held) (name : List ℕ) (loaded : LoadedJob) → HasJob told name loaded
        → IsLoaded loaded }
{}

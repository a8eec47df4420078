//! What a trace is of.
ghost use Rattle.std.specs.Prelude.{◌≡◌, List, length};
ghost use Rattle.tc_base.specs.declared.hook.Hook.{Hook};
ghost use Rattle.pcap_io.specs.declared.capture.Packet.{Packet};
ghost use Rattle.pcap_io.specs.declared.capture.Capture.{Capture};
ghost use Rattle.filter_state.specs.States.{State, no_state};
ghost use Rattle.filter_state.specs.Journals.{state_at};
ghost use Rattle.batch_run.specs.Commands.{Command};
ghost use Rattle.batch_run.specs.Runs.{Ran, IsRun};
ghost use Rattle.batch_walk.specs.declared.walk.BatchWalk.{BatchWalk};
ghost use Rattle.batch_walk.specs.Walked.{walk_text, IsWalked};
ghost use Rattle.filter_origins.specs.Entries.{Entry, edits_of};
ghost use Rattle.batch_trace.specs.Accepted.{AreAccepted};
ghost use Rattle.batch_trace.specs.Traced.{own_in, trace_parts, trace_text, told_trace};
ghost use Rattle.batch_trace.specs.Untold.{without_told};

/// The commands of a batch have one list of accepted edits: at least one, and not two.
pub fn one_list()
    ensures some { (commands : List Command) → (entries : List Entry) × AreAccepted commands entries }
    ensures one { (commands : List Command) (a b : List Entry) → AreAccepted commands a
        → AreAccepted commands b → a ≡ b }
{}

/// They are the edits that the batch's run counts, and the state that it leaves is the one behind them.
pub fn entries_of_runs()
    ensures { (commands : List Command) (ran : Ran) (entries : List Entry) → IsRun no_state 0 commands ran
        → AreAccepted commands entries → (ran.state ≡ state_at (length entries) (edits_of entries))
        × (ran.accepted ≡ length entries) }
{}

/// What is told by the parts of a walk's text is the trace of its run. There is an end for each packet.
pub fn walks_are_traced()
    ensures text { (ran : Ran) (hook : Hook) (capture : Capture) (walk : BatchWalk) (entries : List Entry)
        → IsWalked ran hook capture walk → told_trace walk.text entries hook capture.packets
        ≡ trace_text ran entries hook capture.packets }
    ensures each { (ran : Ran) (hook : Hook) (capture : Capture) (walk : BatchWalk)
        → IsWalked ran hook capture walk → length walk.text.ends ≡ length capture.packets }
{}

/// A trace without the parts that it tells beside is the text of the walk. They can be told by the bytes
/// alone: it is what is left without the lines that begin with `at ` and `decided `.
pub fn nothing_else_is_told()
    ensures parts { (ran : Ran) (entries : List Entry) (hook : Hook) (packets : List Packet)
        → own_in (trace_parts ran entries hook packets) ≡ walk_text ran hook packets }
    ensures lines { (ran : Ran) (entries : List Entry) (hook : Hook) (packets : List Packet)
        → without_told (trace_text ran entries hook packets) ≡ walk_text ran hook packets }
{}

ghost use Rattle.std.specs.Prelude.{◌≡◌, ◌≤◌, ℕ, List, length};
ghost use Rattle.dm_base.specs.declared.event.Event.{Event};
ghost use Rattle.dm_base.specs.declared.outcome.TraceEnd.{TraceEnd};
ghost use Rattle.trace_file.specs.declared.error.TraceError.{TraceError};
ghost use Rattle.trace_file.specs.declared.error.TraceError.TheVariants.{OutOfMemory};
ghost use Rattle.trace_file.specs.declared.record.Record.{Record};
ghost use Rattle.trace_file.specs.declared.version.TracesVersion.{TracesVersion};
ghost use Rattle.trace_file.specs.Known.{known_count};
ghost use Rattle.trace_file.specs.Trace.{IsTrace, IsTraceWithin, IsTraceRefusal, longest, most};
ghost use Rattle.trace_file.specs.Traces.{AreTraces, AreTracesWithin, IsTracesRefusal, most_processes};

/// A law: a text is that of one trace at most; a trace within the limits is refused for want of
/// memory alone; and a formed trace, as `write_trace` gives it, is within the limits where the number
/// of its events and its length are, so that a reader gives these events and this end back.
pub fn one_trace()
    ensures one { (text : List ℕ) (events others : List Event) (end other : TraceEnd) → IsTraceWithin text events end → IsTraceWithin text others other → (others ≡ events) × (other ≡ end) }
    ensures unrefused { (text : List ℕ) (events : List Event) (end : TraceEnd) (error : TraceError) → IsTraceWithin text events end → IsTraceRefusal error text → error ≡ OutOfMemory }
    ensures written { (text : List ℕ) (events : List Event) (end : TraceEnd) → IsTrace text events end → length events ≤ most → length text ≤ longest → IsTraceWithin text events end }
{}

/// A law: a text is that of one version and one list of records at most; interleaved traces within
/// the limits are refused for want of memory alone; and formed ones, as `write_traces` gives them,
/// are within the limits where the numbers of their records and processes and their length are, so
/// that a reader gives this version and these records back.
pub fn one_list_of_records()
    ensures one { (text : List ℕ) (version other : TracesVersion) (records others : List Record) → AreTracesWithin text version records → AreTracesWithin text other others → (other ≡ version) × (others ≡ records) }
    ensures unrefused { (text : List ℕ) (version : TracesVersion) (records : List Record) (error : TraceError) → AreTracesWithin text version records → IsTracesRefusal error text → error ≡ OutOfMemory }
    ensures written { (text : List ℕ) (version : TracesVersion) (records : List Record) → AreTraces text version records → length records ≤ most → known_count version records ≤ most_processes → length text ≤ longest → AreTracesWithin text version records }
{}

ghost use Rattle.std.specs.Prelude.{◌≡◌, ◌≢◌, ◌≤◌, ◌⊎◌, ℕ, List, Some, map, string_bytes, IsSome, IfOk, IfErr};
ghost use Rattle.dm_base.specs.declared.verdict.Status.{Status as AnyStatus};
ghost use Rattle.dm_io.specs.Memory.{told};
ghost use Rattle.tool.specs.Frame.{call_of, AsksToAudit, AsksToTest, HasCause, Writes, Reports, IsAsked, IsLacking, IsRefused, IsSound, IsUndisturbed};
ghost use Rattle.tool.specs.Stop.{HasStop, IsWorked};
ghost use Rattle.tool_frame.specs.Stop.{IsFinished};

use dm_base::{OutOfMemory, Status};
use dm_io::{HonestSink, HonestStore, Sink, Store, write_whole};
use std::alloc::Global;
use tool_audit::{audit_source, self_test};
use tool_fleet::run_fleet;
use tool_frame::{Finished, Stop, refuse};
use tool_instrument::instrument_source;
use tool_models::{judge, measure, upgrade, watch_traces};
use tool_reading::{
    certify_trace, confirm_certificate, depth_of_model, expected_command, inlined_model,
    picture_of_model, tell_codes,
};
use tool_texts::{check_source, explain_source, model_of_source, run_source, sites_of_source};
use tool_words::{Command, command_of};

const VERSION_TEXT: &[u8] = b"dyckmon 1\n";

const HELP_TEXT: &[u8] = b"\
dyckmon, dyckmon --version               the version
dyckmon --help                           this text
dyckmon audit FILE RESULTS TURNS K       the trace of the C text's instrumented program, and its verdicts
dyckmon certify MODEL TRACE WHICH        a certificate of the verdict of callgraph or stack on the trace
dyckmon check FILE                       how many functions and calls the C text has
dyckmon codes                            each code of a refusal or of undefined behaviour, with its reason
dyckmon confirm MODEL TRACE CERTIFICATE  the verdict of the certificate, where it shows it
dyckmon depth MODEL                      how many calls may be open at once
dyckmon expected MODEL TRACE WHICH [K]   the verdict lines, and after each what may come next
dyckmon explain FILE                     where the C text is refused and why, or what check tells
dyckmon fleet SCHEDULE WHICH             what each process of the schedule comes to under its model
dyckmon inline MODEL                     the file of a model without calls that has the same words
dyckmon instrument FILE                  the C text with null calls round its marked calls
dyckmon judge MODEL TRACE WHICH [K]      the verdict lines of the model on the trace
dyckmon measure MODEL TRACE WHICH        how many calls may come next along the trace
dyckmon model FILE                       the file of the model of the C text
dyckmon picture MODEL                    the model as a graph in the DOT language of Graphviz
dyckmon run FILE RESULTS TURNS           the trace of the C text's program with recorded results
dyckmon selftest NUMBER SIZE             a program made from the number, audited
dyckmon sites FILE                       where each call of the C text stands, and what it may call
dyckmon upgrade MODEL                    the file of the model in the newest version
dyckmon watch MODEL TRACES WHICH [K]     the verdict lines of each process of interleaved traces
CERTIFICATE, FILE, MODEL, RESULTS, SCHEDULE, TRACE and TRACES are names of files. WHICH is callgraph,
stack, dyck, or all for the three in this order; with certify one of the first two, with fleet one of the
first three. K is how many calls may be open at once in the Dyck model, 1 to 65535; it is 1000 where none
is given. TURNS is how many functions may be entered and loops be tested, together, 0 to 1000000.
NUMBER is 0 to 4294967295, and SIZE how many functions stand before main, 1 to 500.
";

// A text that no file decides.
fn done(alloc: Global, text: &[u8]) -> Result<Finished, OutOfMemory>
    ensures status { IfOk result (λ done. done.status ≡ Status.Done) }
    ensures text { IfOk result (λ done. done.text.items ≡ text.now) }
{
    Ok(Finished {
        status: Status::Done,
        text: text.to_vec(alloc)?,
    })
}

// Makes the text of the command of the words.
fn work<S: Store>(alloc: Global, words: &[String], store: &mut S) -> Result<Finished, Stop>
    ensures same { S.files store.new ≡ S.files store.old }
    ensures never_falls { S.faults store.old ≤ S.faults store.new }
    ensures made { IfOk result (λ done. IsFinished done.status × IsWorked (map string_bytes words.now) (S.files store.old) done.status done.text.items) }
    ensures stop { IfErr result (λ stop. HasStop stop (map string_bytes words.now) (S.files store.old) (S.faults store.old) (S.faults store.new)) }
{
    match command_of(words) {
        None => Err(Stop::Usage),
        Some(Command::Version) => Ok(done(alloc, VERSION_TEXT)?),
        Some(Command::Help) => Ok(done(alloc, HELP_TEXT)?),
        Some(Command::Codes) => Ok(tell_codes(alloc)?),
        Some(
            Command::Measure {
                model,
                trace,
                asked,
            },
        ) => measure(alloc, store, model, trace, asked),
        Some(Command::Check { source }) => check_source(alloc, store, source),
        Some(Command::Depth { model }) => depth_of_model(alloc, store, model),
        Some(Command::Explain { source }) => explain_source(alloc, store, source),
        Some(Command::Fleet { schedule, which }) => run_fleet(alloc, store, schedule, which),
        Some(Command::Inline { model }) => inlined_model(alloc, store, model),
        Some(Command::Instrument { source }) => instrument_source(alloc, store, source),
        Some(Command::Model { source }) => model_of_source(alloc, store, source),
        Some(Command::Picture { model }) => picture_of_model(alloc, store, model),
        Some(Command::Sites { source }) => sites_of_source(alloc, store, source),
        Some(Command::Selftest { number, size }) => Ok(self_test(alloc, number, size)?),
        Some(Command::Upgrade { model }) => upgrade(alloc, store, model),
        Some(
            Command::Run {
                source,
                results,
                turns,
            },
        ) => run_source(alloc, store, source, results, turns),
        Some(
            Command::Audit {
                source,
                results,
                turns,
                bound,
            },
        ) => audit_source(alloc, store, source, results, turns, bound),
        Some(
            Command::Certify {
                model,
                trace,
                judge,
            },
        ) => certify_trace(alloc, store, model, trace, judge),
        Some(
            Command::Confirm {
                model,
                trace,
                certificate,
            },
        ) => confirm_certificate(alloc, store, model, trace, certificate),
        Some(
            Command::Expected {
                model,
                trace,
                asked,
                bound,
            },
        ) => expected_command(alloc, store, model, trace, asked, bound),
        Some(
            Command::Judge {
                model,
                trace,
                asked,
                bound,
            },
        ) => judge(alloc, store, model, trace, asked, bound),
        Some(
            Command::Watch {
                model,
                traces,
                asked,
                bound,
            },
        ) => watch_traces(alloc, store, model, traces, asked, bound),
    }
}

/// Runs the tool: reads the words and the files that they name, does the work, writes its text on
/// out, and a line on err where that was not possible.
pub fn run_tool<S: Store, O: Sink, E: Sink>(
    alloc: Global,
    words: &[String],
    store: &mut S,
    out: &mut O,
    err: &mut E,
) -> Status
    // When each status comes.
    ensures cause { HasCause result (call_of (map string_bytes words.now) (S.files store.old) (S.faults store.old) (S.faults store.new) (O.faults out.old) (O.faults out.new)) }
    ensures usage { (IsAsked (call_of (map string_bytes words.now) (S.files store.old) (S.faults store.old) (S.faults store.new) (O.faults out.old) (O.faults out.new)) → ⊥) → result ≡ Status.Usage }

    // What is written.
    ensures written { Writes result (call_of (map string_bytes words.now) (S.files store.old) (S.faults store.old) (S.faults store.new) (O.faults out.old) (O.faults out.new)) (O.taken out.old) (O.taken out.new) }
    ensures reported { Reports result (call_of (map string_bytes words.now) (S.files store.old) (S.faults store.old) (S.faults store.new) (O.faults out.old) (O.faults out.new)) (E.faults err.old) (E.faults err.new) (E.taken err.old) (E.taken err.new) }

    // Where nothing is disturbed, the work is done or the refusal that is due is given, unless
    // memory is refused.
    ensures complete { IsSound (call_of (map string_bytes words.now) (S.files store.old) (S.faults store.old) (S.faults store.new) (O.faults out.old) (O.faults out.new)) → IsUndisturbed (call_of (map string_bytes words.now) (S.files store.old) (S.faults store.old) (S.faults store.new) (O.faults out.old) (O.faults out.new)) → IsFinished result ⊎ (result ≡ Status.OutOfMemory) }
    ensures refused { (status : AnyStatus) (line : List ℕ) → IsSome (S.files store.old) → IsRefused (call_of (map string_bytes words.now) (S.files store.old) (S.faults store.old) (S.faults store.new) (O.faults out.old) (O.faults out.new)) status line → IsUndisturbed (call_of (map string_bytes words.now) (S.files store.old) (S.faults store.old) (S.faults store.new) (O.faults out.old) (O.faults out.new)) → (result ≡ status) ⊎ (result ≡ Status.OutOfMemory) }

    // `audit` never rejects.
    ensures audit { AsksToAudit (call_of (map string_bytes words.now) (S.files store.old) (S.faults store.old) (S.faults store.new) (O.faults out.old) (O.faults out.new)) → result ≢ Status.Rejected }

    // `selftest` does its work, unless its text isn't taken or memory is refused.
    ensures selftest { AsksToTest (call_of (map string_bytes words.now) (S.files store.old) (S.faults store.old) (S.faults store.new) (O.faults out.old) (O.faults out.new)) → (result ≡ Status.Done) ⊎ ((result ≡ Status.WriteFault) ⊎ (result ≡ Status.OutOfMemory)) }

    // The store's files stay as they are told, and no count falls, so a later call over the same
    // store and sinks finds what the contracts of both say.
    ensures same { S.files store.new ≡ S.files store.old }
    ensures store_count { S.faults store.old ≤ S.faults store.new }
    ensures out_count { O.faults out.old ≤ O.faults out.new }
    ensures err_count { E.faults err.old ≤ E.faults err.new }
{
    let finished = match work(alloc, words, store) {
        Ok(finished) => finished,
        Err(stop) => return refuse(err, &stop),
    };
    if write_whole(out, &finished.text).is_err() {
        return refuse(err, &Stop::Write);
    }
    finished.status
}

/// Runs the tool over files and sinks in memory that never fail, so no count of faults can rise:
/// where the words are a command, its files are there and it refuses none, the work is done unless
/// memory is refused.
pub fn run_in_memory(
    alloc: Global,
    words: &[String],
    store: &mut HonestStore,
    out: &mut HonestSink,
    err: &mut HonestSink,
) -> Status
    ensures cause { HasCause result (call_of (map string_bytes words.now) (Some store.old) 0 0 0 0) }
    ensures usage { (IsAsked (call_of (map string_bytes words.now) (Some store.old) 0 0 0 0) → ⊥) → result ≡ Status.Usage }
    ensures written { Writes result (call_of (map string_bytes words.now) (Some store.old) 0 0 0 0) (told out.old) (told out.new) }
    ensures reported { Reports result (call_of (map string_bytes words.now) (Some store.old) 0 0 0 0) 0 0 (told err.old) (told err.new) }
    ensures complete { IsSound (call_of (map string_bytes words.now) (Some store.old) 0 0 0 0) → (IsLacking (call_of (map string_bytes words.now) (Some store.old) 0 0 0 0) → ⊥) → IsFinished result ⊎ (result ≡ Status.OutOfMemory) }
    ensures refused { (status : AnyStatus) (line : List ℕ) → IsRefused (call_of (map string_bytes words.now) (Some store.old) 0 0 0 0) status line → (IsLacking (call_of (map string_bytes words.now) (Some store.old) 0 0 0 0) → ⊥) → (result ≡ status) ⊎ (result ≡ Status.OutOfMemory) }
    ensures audit { AsksToAudit (call_of (map string_bytes words.now) (Some store.old) 0 0 0 0) → result ≢ Status.Rejected }
    ensures selftest { AsksToTest (call_of (map string_bytes words.now) (Some store.old) 0 0 0 0) → (result ≡ Status.Done) ⊎ (result ≡ Status.OutOfMemory) }
    ensures same { store.new ≡ store.old }
{
    run_tool(alloc, words, store, out, err)
}

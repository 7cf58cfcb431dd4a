ghost use Rattle.std.specs.Prelude.{◌≡◌, ◌≤◌, ◌⊎◌, ℕ, List, [], ◌∷◌, length, map, string_bytes, decimal, IfSome, IfNone};
ghost use Rattle.certify_facts.specs.declared.fact.Judge.{Judge as AnyJudge};
ghost use Rattle.flow_model.specs.declared.which.Which.{Which as AnyWhich};
ghost use Rattle.report.specs.VerdictLine.{word_of};
ghost use Rattle.tool_monitors.specs.Monitors.{asked_word};
ghost use Rattle.tool_words.specs.Command.{Command as AskedCommand, TraceCommand, IsCommandLine, IsAskedBy, judge_word};
ghost use Rattle.tool_words.specs.Command.Command.{OfTrace, Measure, Fleet, Run, Audit, Confirm, Certify, Selftest};
ghost use Rattle.tool_words.specs.Command.TraceCommand.{Expected, Judge, Watch};
ghost use Rattle.tool_monitors.specs.declared.asked.Asked.{Asked as AnyAsked};
ghost use Rattle.tool_words.specs.Asked.{asked_by};

use certify_facts::Judge as CertifiedModel;
use dm_base::read_u32;
use flow_model::Which;
use tool_monitors::Asked;

/// What the words ask for.
#[derive(Clone, Copy)]
pub enum Command<'a> {
    /// The version.
    Version,
    /// The text on the commands.
    Help,
    /// The codes with their reasons.
    Codes,
    /// How many functions and call expressions the program of the C text in a file has.
    Check {
        source: &'a str,
    },
    /// How many calls may be open at once in the model in a file.
    Depth {
        model: &'a str,
    },
    /// Where the C text in a file is refused, and why; else what `Check` tells.
    Explain {
        source: &'a str,
    },
    /// The text of the inlined model of the model in a file.
    Inline {
        model: &'a str,
    },
    /// The C text in a file with null calls round the marked calls of its program.
    Instrument {
        source: &'a str,
    },
    /// The text of the model of the program of the C text in a file.
    Model {
        source: &'a str,
    },
    /// The picture of the model in a file.
    Picture {
        model: &'a str,
    },
    /// Where each call expression of the C text in a file stands, and what it may call.
    Sites {
        source: &'a str,
    },
    /// The text of the model in a file in the newest version.
    Upgrade {
        model: &'a str,
    },
    /// The verdicts of monitors of the model in a file on the trace in another, as `Judge` has them, and after each
    /// what may come next.
    Expected {
        model: &'a str,
        trace: &'a str,
        asked: Asked,
        bound: u32,
    },
    /// The verdicts of monitors of the model in a file on the trace in another, where at most so many
    /// calls may be open at once in the Dyck model.
    Judge {
        model: &'a str,
        trace: &'a str,
        asked: Asked,
        bound: u32,
    },
    /// The verdicts of monitors of the model in a file on the processes of the interleaved traces in
    /// another, where at most so many calls may be open at once in the Dyck model.
    Watch {
        model: &'a str,
        traces: &'a str,
        asked: Asked,
        bound: u32,
    },
    /// The trace of the run of the program of the C text in a file with the recorded results in another, where
    /// at most so many functions may be entered and loops be tested, together.
    Run {
        source: &'a str,
        results: &'a str,
        turns: u32,
    },
    /// The trace of the run of the instrumented program of the C text in a file, as `Run` has it, with the verdicts of
    /// the monitors of the C text's own model, where at most so many calls may be open at once in the Dyck model.
    Audit {
        source: &'a str,
        results: &'a str,
        turns: u32,
        bound: u32,
    },
    /// The precision of monitors of the model in a file along the trace in another.
    Measure {
        model: &'a str,
        trace: &'a str,
        asked: Asked,
    },
    /// The audit of a program that is made from the number, with so many functions before its main function.
    Selftest {
        number: u32,
        size: u32,
    },
    /// What the processes of the schedule in a file come to, each judged by this monitor of its model while all of them run.
    Fleet {
        schedule: &'a str,
        which: Which,
    },
    /// A certificate of the verdict of this monitor of the model in a file on the trace in another.
    Certify {
        model: &'a str,
        trace: &'a str,
        judge: CertifiedModel,
    },
    /// The verdict of the certificate in the third file on the trace in the second by the model in the first, where it shows it.
    Confirm {
        model: &'a str,
        trace: &'a str,
        certificate: &'a str,
    },
}

// The bound of the Dyck model where none is given.
const USUAL_BOUND: u32 = 1_000;

// The greatest bound.
const GREATEST_BOUND: u32 = 65_535;

// The most functions before main that a program is made with.
const GREATEST_SIZE: u32 = 500;

// The greatest number of turns.
const MOST_TURNS: u32 = 1_000_000;

/// The command of these words, or None where they are no command line.
pub fn command_of(words: &[String]) -> Option<Command<'_>>
    ensures some { IfSome result (λ command. IsCommandLine (asked_by command) (map string_bytes words.now)) }
    ensures none { IfNone result ((c : AskedCommand) → IsCommandLine c (map string_bytes words.now) → ⊥) }
{
    match words {
        [] => Some(Command::Version),
        [word] => option_of(word),
        [word, file] => file_command_of(word, file),
        [word, second, third] => three_word_command_of(word, second, third),
        [word, model, trace, asked @ ..] => trace_command_of(word, model, trace, asked),
    }
}

// A command of one word.
fn option_of<'a>(word: &str) -> Option<Command<'a>>
    ensures some { IfSome result (λ command. IsCommandLine (asked_by command) (word.now ∷ [])) }
    ensures none { IfNone result ((c : AskedCommand) → IsCommandLine c (word.now ∷ []) → ⊥) }
{
    if word == "--version" {
        return Some(Command::Version);
    }
    if word == "--help" {
        return Some(Command::Help);
    }
    if word == "codes" {
        return Some(Command::Codes);
    }
    None
}

// A command of a word and a file.
fn file_command_of<'a>(word: &str, file: &'a str) -> Option<Command<'a>>
    ensures some { IfSome result (λ command. IsCommandLine (asked_by command) (word.now ∷ file.now ∷ [])) }
    ensures none { IfNone result ((c : AskedCommand) → IsCommandLine c (word.now ∷ file.now ∷ []) → ⊥) }
{
    if word == "check" {
        return Some(Command::Check { source: file });
    }
    if word == "depth" {
        return Some(Command::Depth { model: file });
    }
    if word == "explain" {
        return Some(Command::Explain { source: file });
    }
    if word == "inline" {
        return Some(Command::Inline { model: file });
    }
    if word == "instrument" {
        return Some(Command::Instrument { source: file });
    }
    if word == "model" {
        return Some(Command::Model { source: file });
    }
    if word == "picture" {
        return Some(Command::Picture { model: file });
    }
    if word == "sites" {
        return Some(Command::Sites { source: file });
    }
    if word == "upgrade" {
        return Some(Command::Upgrade { model: file });
    }
    None
}

// The monitors that the word asks for.
fn asked_of(word: &str) -> Option<Asked>
    ensures some { IfSome result (λ asked. word.now ≡ asked_word asked) }
    ensures none { IfNone result ((asked : AnyAsked) → word.now ≡ asked_word asked → ⊥) }
{
    if word == "callgraph" {
        return Some(Asked::Callgraph);
    }
    if word == "stack" {
        return Some(Asked::Stack);
    }
    if word == "dyck" {
        return Some(Asked::Dyck);
    }
    if word == "all" {
        return Some(Asked::All);
    }
    None
}

// The bound that the word is.
fn bound_of(word: &str) -> Option<u32>
    ensures some { IfSome result (λ bound. (word.now ≡ decimal bound) × (1 ≤ bound) × (bound ≤ 65535)) }
    ensures none { IfNone result ((bound : ℕ) → word.now ≡ decimal bound → 1 ≤ bound → bound ≤ 65535 → ⊥) }
{
    let bound = read_u32(word.as_bytes())?;
    if 1 <= bound && bound <= GREATEST_BOUND {
        Some(bound)
    } else {
        None
    }
}

// What is asked for: which monitors, and up to which bound.
fn asked_for(words: &[String]) -> Option<(Asked, u32)>
    ensures some { IfSome result (λ found. IsAskedBy found.0 found.1 (map string_bytes words.now)) }
    ensures none { IfNone result ((asked : AnyAsked) (bound : ℕ) → IsAskedBy asked bound (map string_bytes words.now) → ⊥) }
{
    match words {
        [which] => Some((asked_of(which)?, USUAL_BOUND)),
        [which, bound] => bounded(which, bound),
        _ => None,
    }
}

// Which monitors are asked for, up to the bound that the second word is.
fn bounded(which: &str, bound: &str) -> Option<(Asked, u32)>
    ensures some { IfSome result (λ found. IsAskedBy found.0 found.1 (which.now ∷ bound.now ∷ [])) }
    ensures none { IfNone result ((asked : AnyAsked) (number : ℕ) → IsAskedBy asked number (which.now ∷ bound.now ∷ []) → ⊥) }
{
    let asked = asked_of(which)?;
    let number = bound_of(bound)?;
    Some((asked, number))
}

// The monitor that the word asks for.
fn which_of(word: &str) -> Option<Which>
    ensures some { IfSome result (λ which. word.now ≡ word_of which) }
    ensures none { IfNone result ((which : AnyWhich) → word.now ≡ word_of which → ⊥) }
{
    if word == "callgraph" {
        return Some(Which::Callgraph);
    }
    if word == "stack" {
        return Some(Which::Stack);
    }
    if word == "dyck" {
        return Some(Which::Dyck);
    }
    None
}

// The number that the word is.
fn number_of(word: &str) -> Option<u32>
    ensures some { IfSome result (λ number. (word.now ≡ decimal number) × (number ≤ 4294967295)) }
    ensures none { IfNone result ((number : ℕ) → word.now ≡ decimal number → number ≤ 4294967295 → ⊥) }
{
    let number = read_u32(word.as_bytes())?;
    Some(number)
}

// The number of functions that the word is.
fn size_of(word: &str) -> Option<u32>
    ensures some { IfSome result (λ size. (word.now ≡ decimal size) × (1 ≤ size) × (size ≤ 500)) }
    ensures none { IfNone result ((size : ℕ) → word.now ≡ decimal size → 1 ≤ size → size ≤ 500 → ⊥) }
{
    let size = read_u32(word.as_bytes())?;
    if 1 <= size && size <= GREATEST_SIZE {
        Some(size)
    } else {
        None
    }
}

// The command `selftest`.
fn selftest_of<'a>(word: &str, number: &str, size: &str) -> Option<Command<'a>>
    ensures some { IfSome result (λ command. IsCommandLine (asked_by command) (word.now ∷ number.now ∷ size.now ∷ [])) }
    ensures none { IfNone result ((n s : ℕ) → IsCommandLine (Selftest n s) (word.now ∷ number.now ∷ size.now ∷ []) → ⊥) }
{
    if word != "selftest" {
        return None;
    }
    let drawn = number_of(number)?;
    let functions = size_of(size)?;
    Some(Command::Selftest {
        number: drawn,
        size: functions,
    })
}

// A command of three words: `selftest` or `fleet`.
fn three_word_command_of<'a>(word: &str, second: &'a str, third: &str) -> Option<Command<'a>>
    ensures some { IfSome result (λ command. IsCommandLine (asked_by command) (word.now ∷ second.now ∷ third.now ∷ [])) }
    ensures none { IfNone result ((c : AskedCommand) → IsCommandLine c (word.now ∷ second.now ∷ third.now ∷ []) → ⊥) }
{
    match selftest_of(word, second, third) {
        Some(command) => Some(command),
        None => fleet_of(word, second, third),
    }
}

// The command `fleet`.
fn fleet_of<'a>(word: &str, schedule: &'a str, which: &str) -> Option<Command<'a>>
    ensures some { IfSome result (λ command. IsCommandLine (asked_by command) (word.now ∷ schedule.now ∷ which.now ∷ [])) }
    ensures none { IfNone result ((s : List ℕ) (w : AnyWhich) → IsCommandLine (Fleet s w) (word.now ∷ schedule.now ∷ which.now ∷ []) → ⊥) }
{
    if word != "fleet" {
        return None;
    }
    let monitor = which_of(which)?;
    Some(Command::Fleet {
        schedule,
        which: monitor,
    })
}

// A command of a word, two files, and what is asked for.
fn trace_command_of<'a>(
    word: &str,
    model: &'a str,
    trace: &'a str,
    words: &'a [String],
) -> Option<Command<'a>>
    requires { 1 ≤ length words.now }
    ensures some { IfSome result (λ command. IsCommandLine (asked_by command) (word.now ∷ model.now ∷ trace.now ∷ map string_bytes words.now)) }
    ensures none { IfNone result ((c : AskedCommand) → IsCommandLine c (word.now ∷ model.now ∷ trace.now ∷ map string_bytes words.now) → ⊥) }
{
    match bounded_command_of(word, model, trace, words) {
        Some(command) => Some(command),
        None => unbounded_command_of(word, model, trace, words),
    }
}

// A command of a word, two files and one or two more words.
fn unbounded_command_of<'a>(
    word: &str,
    first: &'a str,
    second: &'a str,
    words: &'a [String],
) -> Option<Command<'a>>
    ensures some { IfSome result (λ command. IsCommandLine (asked_by command) (word.now ∷ first.now ∷ second.now ∷ map string_bytes words.now)) }
    ensures measure { IfNone result ((m t : List ℕ) (which : AnyAsked) → IsCommandLine (Measure m t which) (word.now ∷ first.now ∷ second.now ∷ map string_bytes words.now) → ⊥) }
    ensures run { IfNone result ((s r : List ℕ) (turns : ℕ) → IsCommandLine (Run s r turns) (word.now ∷ first.now ∷ second.now ∷ map string_bytes words.now) → ⊥) }
    ensures audit { IfNone result ((s r : List ℕ) (turns bound : ℕ) → IsCommandLine (Audit s r turns bound) (word.now ∷ first.now ∷ second.now ∷ map string_bytes words.now) → ⊥) }
    ensures confirm { IfNone result ((m t c : List ℕ) → IsCommandLine (Confirm m t c) (word.now ∷ first.now ∷ second.now ∷ map string_bytes words.now) → ⊥) }
    ensures certify { IfNone result ((m t : List ℕ) (judge : AnyJudge) → IsCommandLine (Certify m t judge) (word.now ∷ first.now ∷ second.now ∷ map string_bytes words.now) → ⊥) }
{
    match measure_of(word, first, second, words) {
        Some(command) => Some(command),
        None => other_command_of(word, first, second, words),
    }
}

// A command that runs a program, or one on certificates.
fn other_command_of<'a>(
    word: &str,
    first: &'a str,
    second: &'a str,
    words: &'a [String],
) -> Option<Command<'a>>
    ensures some { IfSome result (λ command. IsCommandLine (asked_by command) (word.now ∷ first.now ∷ second.now ∷ map string_bytes words.now)) }
    ensures run { IfNone result ((s r : List ℕ) (turns : ℕ) → IsCommandLine (Run s r turns) (word.now ∷ first.now ∷ second.now ∷ map string_bytes words.now) → ⊥) }
    ensures audit { IfNone result ((s r : List ℕ) (turns bound : ℕ) → IsCommandLine (Audit s r turns bound) (word.now ∷ first.now ∷ second.now ∷ map string_bytes words.now) → ⊥) }
    ensures confirm { IfNone result ((m t c : List ℕ) → IsCommandLine (Confirm m t c) (word.now ∷ first.now ∷ second.now ∷ map string_bytes words.now) → ⊥) }
    ensures certify { IfNone result ((m t : List ℕ) (judge : AnyJudge) → IsCommandLine (Certify m t judge) (word.now ∷ first.now ∷ second.now ∷ map string_bytes words.now) → ⊥) }
{
    match running_command_of(word, first, second, words) {
        Some(command) => Some(command),
        None => certificate_command_of(word, first, second, words),
    }
}

// A command on certificates.
fn certificate_command_of<'a>(
    word: &str,
    model: &'a str,
    trace: &'a str,
    words: &'a [String],
) -> Option<Command<'a>>
    ensures some { IfSome result (λ command. IsCommandLine (asked_by command) (word.now ∷ model.now ∷ trace.now ∷ map string_bytes words.now)) }
    ensures confirm { IfNone result ((m t c : List ℕ) → IsCommandLine (Confirm m t c) (word.now ∷ model.now ∷ trace.now ∷ map string_bytes words.now) → ⊥) }
    ensures certify { IfNone result ((m t : List ℕ) (judge : AnyJudge) → IsCommandLine (Certify m t judge) (word.now ∷ model.now ∷ trace.now ∷ map string_bytes words.now) → ⊥) }
{
    match words {
        [last] => certificate_command(word, model, trace, last),
        _ => None,
    }
}

// The command `confirm` or the command `certify`.
fn certificate_command<'a>(
    word: &str,
    model: &'a str,
    trace: &'a str,
    last: &'a str,
) -> Option<Command<'a>>
    ensures some { IfSome result (λ command. IsCommandLine (asked_by command) (word.now ∷ model.now ∷ trace.now ∷ last.now ∷ [])) }
    ensures confirm { IfNone result ((m t c : List ℕ) → IsCommandLine (Confirm m t c) (word.now ∷ model.now ∷ trace.now ∷ last.now ∷ []) → ⊥) }
    ensures certify { IfNone result ((m t : List ℕ) (judge : AnyJudge) → IsCommandLine (Certify m t judge) (word.now ∷ model.now ∷ trace.now ∷ last.now ∷ []) → ⊥) }
{
    match confirm_of(word, model, trace, last) {
        Some(command) => Some(command),
        None => certify_of(word, model, trace, last),
    }
}

// The model that the word names.
fn judge_named(word: &str) -> Option<CertifiedModel>
    ensures some { IfSome result (λ judge. word.now ≡ judge_word judge) }
    ensures none { IfNone result ((judge : AnyJudge) → word.now ≡ judge_word judge → ⊥) }
{
    if word == "callgraph" {
        return Some(CertifiedModel::Callgraph);
    }
    if word == "stack" {
        return Some(CertifiedModel::Stack);
    }
    None
}

// The command `certify`.
fn certify_of<'a>(word: &str, model: &'a str, trace: &'a str, which: &str) -> Option<Command<'a>>
    ensures some { IfSome result (λ command. IsCommandLine (asked_by command) (word.now ∷ model.now ∷ trace.now ∷ which.now ∷ [])) }
    ensures none { IfNone result ((m t : List ℕ) (judge : AnyJudge) → IsCommandLine (Certify m t judge) (word.now ∷ model.now ∷ trace.now ∷ which.now ∷ []) → ⊥) }
{
    if word != "certify" {
        return None;
    }
    let judge = judge_named(which)?;
    Some(Command::Certify {
        model,
        trace,
        judge,
    })
}

// The command `confirm`.
fn confirm_of<'a>(
    word: &str,
    model: &'a str,
    trace: &'a str,
    certificate: &'a str,
) -> Option<Command<'a>>
    ensures some { IfSome result (λ command. IsCommandLine (asked_by command) (word.now ∷ model.now ∷ trace.now ∷ certificate.now ∷ [])) }
    ensures none { IfNone result ((m t c : List ℕ) → IsCommandLine (Confirm m t c) (word.now ∷ model.now ∷ trace.now ∷ certificate.now ∷ []) → ⊥) }
{
    if word == "confirm" {
        return Some(Command::Confirm {
            model,
            trace,
            certificate,
        });
    }
    None
}

// A command that runs a program.
fn running_command_of<'a>(
    word: &str,
    source: &'a str,
    results: &'a str,
    words: &[String],
) -> Option<Command<'a>>
    ensures some { IfSome result (λ command. IsCommandLine (asked_by command) (word.now ∷ source.now ∷ results.now ∷ map string_bytes words.now)) }
    ensures run { IfNone result ((s r : List ℕ) (turns : ℕ) → IsCommandLine (Run s r turns) (word.now ∷ source.now ∷ results.now ∷ map string_bytes words.now) → ⊥) }
    ensures audit { IfNone result ((s r : List ℕ) (turns bound : ℕ) → IsCommandLine (Audit s r turns bound) (word.now ∷ source.now ∷ results.now ∷ map string_bytes words.now) → ⊥) }
{
    match run_of(word, source, results, words) {
        Some(command) => Some(command),
        None => audit_of(word, source, results, words),
    }
}

// The number of turns that the word is.
fn turns_of(word: &str) -> Option<u32>
    ensures some { IfSome result (λ turns. (word.now ≡ decimal turns) × (turns ≤ 1000000)) }
    ensures none { IfNone result ((turns : ℕ) → word.now ≡ decimal turns → turns ≤ 1000000 → ⊥) }
{
    let turns = read_u32(word.as_bytes())?;
    if turns <= MOST_TURNS {
        Some(turns)
    } else {
        None
    }
}

// The number of turns that the only word is.
fn turns_alone(words: &[String]) -> Option<u32>
    ensures some { IfSome result (λ turns. (map string_bytes words.now ≡ decimal turns ∷ []) × (turns ≤ 1000000)) }
    ensures none { IfNone result ((turns : ℕ) → map string_bytes words.now ≡ decimal turns ∷ [] → turns ≤ 1000000 → ⊥) }
{
    match words {
        [turns] => turns_of(turns),
        _ => None,
    }
}

// The command `run`.
fn run_of<'a>(
    word: &str,
    source: &'a str,
    results: &'a str,
    words: &[String],
) -> Option<Command<'a>>
    ensures some { IfSome result (λ command. IsCommandLine (asked_by command) (word.now ∷ source.now ∷ results.now ∷ map string_bytes words.now)) }
    ensures none { IfNone result ((s r : List ℕ) (turns : ℕ) → IsCommandLine (Run s r turns) (word.now ∷ source.now ∷ results.now ∷ map string_bytes words.now) → ⊥) }
{
    if word != "run" {
        return None;
    }
    let turns = turns_alone(words)?;
    Some(Command::Run {
        source,
        results,
        turns,
    })
}

// The number of turns and the bound that two words are.
fn turns_and_bound(words: &[String]) -> Option<(u32, u32)>
    ensures some { IfSome result (λ found. (map string_bytes words.now ≡ decimal found.0 ∷ decimal found.1 ∷ []) × (found.0 ≤ 1000000) × (1 ≤ found.1) × (found.1 ≤ 65535)) }
    ensures none { IfNone result ((turns bound : ℕ) → map string_bytes words.now ≡ decimal turns ∷ decimal bound ∷ [] → turns ≤ 1000000 → 1 ≤ bound → bound ≤ 65535 → ⊥) }
{
    match words {
        [turns, bound] => both_numbers(turns, bound),
        _ => None,
    }
}

// The number of turns that the first word is, and the bound that the second one is.
fn both_numbers(turns: &str, bound: &str) -> Option<(u32, u32)>
    ensures some { IfSome result (λ found. (turns.now ≡ decimal found.0) × (bound.now ≡ decimal found.1) × (found.0 ≤ 1000000) × (1 ≤ found.1) × (found.1 ≤ 65535)) }
    ensures none { IfNone result ((number greatest : ℕ) → turns.now ≡ decimal number → bound.now ≡ decimal greatest → number ≤ 1000000 → 1 ≤ greatest → greatest ≤ 65535 → ⊥) }
{
    let number = turns_of(turns)?;
    let greatest = bound_of(bound)?;
    Some((number, greatest))
}

// The command `audit`.
fn audit_of<'a>(
    word: &str,
    source: &'a str,
    results: &'a str,
    words: &[String],
) -> Option<Command<'a>>
    ensures some { IfSome result (λ command. IsCommandLine (asked_by command) (word.now ∷ source.now ∷ results.now ∷ map string_bytes words.now)) }
    ensures none { IfNone result ((s r : List ℕ) (turns bound : ℕ) → IsCommandLine (Audit s r turns bound) (word.now ∷ source.now ∷ results.now ∷ map string_bytes words.now) → ⊥) }
{
    if word != "audit" {
        return None;
    }
    let (turns, bound) = turns_and_bound(words)?;
    Some(Command::Audit {
        source,
        results,
        turns,
        bound,
    })
}

// A command whose monitors may have a bound.
fn bounded_command_of<'a>(
    word: &str,
    model: &'a str,
    trace: &'a str,
    words: &[String],
) -> Option<Command<'a>>
    ensures some { IfSome result (λ command. IsCommandLine (asked_by command) (word.now ∷ model.now ∷ trace.now ∷ map string_bytes words.now)) }
    ensures none { IfNone result ((command : TraceCommand) (m t : List ℕ) (which : AnyAsked) (bound : ℕ) → IsCommandLine (OfTrace command m t which bound) (word.now ∷ model.now ∷ trace.now ∷ map string_bytes words.now) → ⊥) }
{
    match judge_of(word, model, trace, words) {
        Some(command) => Some(command),
        None => later_command_of(word, model, trace, words),
    }
}

// The command `watch` or the command `expected`.
fn later_command_of<'a>(
    word: &str,
    model: &'a str,
    trace: &'a str,
    words: &[String],
) -> Option<Command<'a>>
    ensures some { IfSome result (λ command. IsCommandLine (asked_by command) (word.now ∷ model.now ∷ trace.now ∷ map string_bytes words.now)) }
    ensures watch { IfNone result ((m t : List ℕ) (which : AnyAsked) (bound : ℕ) → IsCommandLine (OfTrace Watch m t which bound) (word.now ∷ model.now ∷ trace.now ∷ map string_bytes words.now) → ⊥) }
    ensures expected { IfNone result ((m t : List ℕ) (which : AnyAsked) (bound : ℕ) → IsCommandLine (OfTrace Expected m t which bound) (word.now ∷ model.now ∷ trace.now ∷ map string_bytes words.now) → ⊥) }
{
    match watch_of(word, model, trace, words) {
        Some(command) => Some(command),
        None => expected_of(word, model, trace, words),
    }
}

// The command `measure`.
fn measure_of<'a>(
    word: &str,
    model: &'a str,
    trace: &'a str,
    words: &[String],
) -> Option<Command<'a>>
    ensures some { IfSome result (λ command. IsCommandLine (asked_by command) (word.now ∷ model.now ∷ trace.now ∷ map string_bytes words.now)) }
    ensures none { IfNone result ((m t : List ℕ) (which : AnyAsked) → IsCommandLine (Measure m t which) (word.now ∷ model.now ∷ trace.now ∷ map string_bytes words.now) → ⊥) }
{
    if word != "measure" {
        return None;
    }
    let asked = asked_alone(words)?;
    Some(Command::Measure {
        model,
        trace,
        asked,
    })
}

// The monitors that the only word asks for.
fn asked_alone(words: &[String]) -> Option<Asked>
    ensures some { IfSome result (λ asked. map string_bytes words.now ≡ asked_word asked ∷ []) }
    ensures none { IfNone result ((asked : AnyAsked) → map string_bytes words.now ≡ asked_word asked ∷ [] → ⊥) }
{
    match words {
        [which] => asked_of(which),
        _ => None,
    }
}

// The command `judge`.
fn judge_of<'a>(word: &str, model: &'a str, trace: &'a str, words: &[String]) -> Option<Command<'a>>
    ensures some { IfSome result (λ command. IsCommandLine (asked_by command) (word.now ∷ model.now ∷ trace.now ∷ map string_bytes words.now)) }
    ensures none { IfNone result ((m t : List ℕ) (which : AnyAsked) (bound : ℕ) → IsCommandLine (OfTrace Judge m t which bound) (word.now ∷ model.now ∷ trace.now ∷ map string_bytes words.now) → ⊥) }
{
    if word != "judge" {
        return None;
    }
    let (asked, bound) = asked_for(words)?;
    Some(Command::Judge {
        model,
        trace,
        asked,
        bound,
    })
}

// The command `watch`.
fn watch_of<'a>(
    word: &str,
    model: &'a str,
    traces: &'a str,
    words: &[String],
) -> Option<Command<'a>>
    ensures some { IfSome result (λ command. IsCommandLine (asked_by command) (word.now ∷ model.now ∷ traces.now ∷ map string_bytes words.now)) }
    ensures none { IfNone result ((m t : List ℕ) (which : AnyAsked) (bound : ℕ) → IsCommandLine (OfTrace Watch m t which bound) (word.now ∷ model.now ∷ traces.now ∷ map string_bytes words.now) → ⊥) }
{
    if word != "watch" {
        return None;
    }
    let (asked, bound) = asked_for(words)?;
    Some(Command::Watch {
        model,
        traces,
        asked,
        bound,
    })
}

// The command `expected`.
fn expected_of<'a>(
    word: &str,
    model: &'a str,
    trace: &'a str,
    words: &[String],
) -> Option<Command<'a>>
    ensures some { IfSome result (λ command. IsCommandLine (asked_by command) (word.now ∷ model.now ∷ trace.now ∷ map string_bytes words.now)) }
    ensures none { IfNone result ((m t : List ℕ) (which : AnyAsked) (bound : ℕ) → IsCommandLine (OfTrace Expected m t which bound) (word.now ∷ model.now ∷ trace.now ∷ map string_bytes words.now) → ⊥) }
{
    if word != "expected" {
        return None;
    }
    let (asked, bound) = asked_for(words)?;
    Some(Command::Expected {
        model,
        trace,
        asked,
        bound,
    })
}

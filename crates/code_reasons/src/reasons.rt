ghost use Rattle.std.specs.Prelude.{◌≡◌, ◌++◌, flat_map, map, IfOk, OnOk};
ghost use Rattle.code_reasons.specs.Reasons.{codes_text, reason_among, reason_of};
ghost use Rattle.code_reasons.specs.Rows.{said, row_line};

use dm_base::OutOfMemory;
use line_text::push_bytes;
use std::alloc::Global;

// A code and its reason.
pub struct Row {
    pub code: &'static [u8],
    pub reason: &'static [u8],
}

// The codes in the order in which they are told.
static TABLE: [Row; 64] = [
    Row {
        code: b"L1",
        reason: b"no token begins with this byte",
    },
    Row {
        code: b"L2",
        reason: b"this comment has no end",
    },
    Row {
        code: b"L3",
        reason: b"this constant, string or name has no form of the language",
    },
    Row {
        code: b"L4",
        reason: b"this constant is too great for its type",
    },
    Row {
        code: b"L5",
        reason: b"only line markers may begin with #: preprocess the text first",
    },
    Row {
        code: b"L6",
        reason: b"this keyword of C99 is outside the language of dyckmon",
    },
    Row {
        code: b"L7",
        reason: b"the text is longer than its limit",
    },
    Row {
        code: b"P1",
        reason: b"no program goes on like this",
    },
    Row {
        code: b"P2",
        reason: b"this is nested too deep",
    },
    Row {
        code: b"C1",
        reason: b"this is used before it is declared",
    },
    Row {
        code: b"C2",
        reason: b"this name is declared already",
    },
    Row {
        code: b"C3",
        reason: b"the types do not fit here",
    },
    Row {
        code: b"C4",
        reason: b"only an object can stand here",
    },
    Row {
        code: b"C5",
        reason: b"this call has too few or too many arguments",
    },
    Row {
        code: b"C6",
        reason: b"this must be a constant with a defined value",
    },
    Row {
        code: b"C7",
        reason: b"this switch has two equal case values or two defaults",
    },
    Row {
        code: b"C8",
        reason: b"no loop or switch is round this break, or no loop round this continue",
    },
    Row {
        code: b"C9",
        reason: b"no int main(void) is defined",
    },
    Row {
        code: b"C10",
        reason: b"this function or object is defined nowhere",
    },
    Row {
        code: b"C11",
        reason: b"this name is that of a system call or a null call, whose declaration is fixed",
    },
    Row {
        code: b"C12",
        reason: b"names that begin with two underscores are reserved",
    },
    Row {
        code: b"C13",
        reason: b"a limit of size or number is passed here",
    },
    Row {
        code: b"C14",
        reason: b"this initialiser does not fit, or is missing",
    },
    Row {
        code: b"G1",
        reason: b"the model has more than 200000 nodes",
    },
    Row {
        code: b"G2",
        reason: b"the text of the model is longer than 16 MiB",
    },
    Row {
        code: b"N1",
        reason: b"the instrumented text is longer than 16 MiB",
    },
    Row {
        code: b"M1",
        reason: b"this line has no form of a model file",
    },
    Row {
        code: b"M2",
        reason: b"the model breaks this rule",
    },
    Row {
        code: b"M3",
        reason: b"the model file is not finished",
    },
    Row {
        code: b"M4",
        reason: b"the model file is longer than 16 MiB",
    },
    Row {
        code: b"M5",
        reason: b"the model file is of another version",
    },
    Row {
        code: b"X1",
        reason: b"this line has no form of a trace",
    },
    Row {
        code: b"X2",
        reason: b"the trace is not finished",
    },
    Row {
        code: b"X3",
        reason: b"the trace is longer than 64 MiB or has more than 1000000 events",
    },
    Row {
        code: b"X4",
        reason: b"more than 4096 processes are known",
    },
    Row {
        code: b"X5",
        reason: b"the trace is of another version",
    },
    Row {
        code: b"F1",
        reason: b"this line has no form of a file of results",
    },
    Row {
        code: b"F2",
        reason: b"the file of results is not finished",
    },
    Row {
        code: b"F3",
        reason: b"the file of results is longer than 64 MiB or has more than 1000000 records",
    },
    Row {
        code: b"F4",
        reason: b"the file of results is of another version",
    },
    Row {
        code: b"S1",
        reason: b"this line has no form of a schedule",
    },
    Row {
        code: b"S2",
        reason: b"the schedule is not finished",
    },
    Row {
        code: b"S3",
        reason: b"the schedule is longer than 16 MiB or has too many lines",
    },
    Row {
        code: b"S4",
        reason: b"the schedule is of another version",
    },
    Row {
        code: b"Q1",
        reason: b"this line has no form of a certificate",
    },
    Row {
        code: b"Q2",
        reason: b"the certificate is not finished",
    },
    Row {
        code: b"Q3",
        reason: b"the certificate is longer than 64 MiB or has more than 1000000 facts",
    },
    Row {
        code: b"Q4",
        reason: b"the certificate is of another version",
    },
    Row {
        code: b"Q5",
        reason: b"the reason of this line does not hold",
    },
    Row {
        code: b"Q6",
        reason: b"the facts do not show the claim",
    },
    Row {
        code: b"I1",
        reason: b"the program is recursive, so it has no finite inlined model",
    },
    Row {
        code: b"I2",
        reason: b"the inlined model has more than 200000 nodes",
    },
    Row {
        code: b"U1",
        reason: b"a signed result is out of range",
    },
    Row {
        code: b"U2",
        reason: b"a division by zero",
    },
    Row {
        code: b"U3",
        reason: b"a shift by an amount or of a value that is out of range",
    },
    Row {
        code: b"U4",
        reason: b"a value that was never stored is read",
    },
    Row {
        code: b"U5",
        reason: b"a null pointer is used",
    },
    Row {
        code: b"U6",
        reason: b"a pointer to an object that has ended is used",
    },
    Row {
        code: b"U7",
        reason: b"a pointer leaves its array",
    },
    Row {
        code: b"U8",
        reason: b"a pointer past the end of its array is followed",
    },
    Row {
        code: b"U9",
        reason: b"pointers into two arrays are ordered or subtracted",
    },
    Row {
        code: b"U10",
        reason: b"a string constant is written to",
    },
    Row {
        code: b"U11",
        reason: b"a function ends without the value that its caller uses",
    },
    Row {
        code: b"U12",
        reason: b"a string has no end in its array, or a buffer is shorter than the size asked",
    },
];

/// A line for each code: the code, a space, its reason and a line feed. The error is that memory was refused.
pub fn codes_text(alloc: Global) -> Result<Vec<u8>, OutOfMemory>
    ensures { IfOk result (λ text. text.items ≡ codes_text) }
{
    lines_of(alloc, &TABLE)
}

/// The reason of a code, as `C7`; empty where it is no code.
pub fn reason_of(code: &[u8]) -> &'static [u8]
    ensures { result.now ≡ reason_of code.now }
{
    reason_among(&TABLE, code)
}

// The lines of the rows.
fn lines_of(alloc: Global, rows: &[Row]) -> Result<Vec<u8>, OutOfMemory>
    ensures { IfOk result (λ text. text.items ≡ flat_map row_line rows.now) }
{
    let mut text = Vec::new(alloc);
    for row in rows {
        push_row(&mut text, row)?;
    }
    Ok(text)
}

// Adds the line of a row.
fn push_row(text: &mut Vec<u8>, row: &Row) -> Result<(), OutOfMemory>
    ensures { OnOk result (text.new.items ≡ text.old.items ++ row_line row.now) }
{
    push_bytes(text, row.code)?;
    push_bytes(text, b" ")?;
    push_bytes(text, row.reason)?;
    push_bytes(text, b"\n")
}

// The reason in the first of the rows that has the code.
fn reason_among(rows: &'static [Row], code: &[u8]) -> &'static [u8]
    ensures { result.now ≡ reason_among (map said rows.now) code.now }
{
    match rows {
        [] => b"",
        [row, others @ ..] => {
            if row.code == code {
                row.reason
            } else {
                reason_among(others, code)
            }
        }
    }
}

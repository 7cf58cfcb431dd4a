ghost use Rattle.std.specs.Prelude.{◌≡◌, ◌++◌, All, IfOk, OnOk, flat_map};
ghost use Rattle.line_text.specs.Words.{number_word};
ghost use Rattle.certify_facts.specs.Form.{IsCounted};
ghost use Rattle.certify_file.specs.CertificateText.{IsCertificate, IsSmall, IsSmallFact, IsSmallReason, fact_line, fact_text, reason_text, verdict_line, which_line};
ghost use Rattle.certify_file.specs.Lines.{AreSmall, IsSmallLine, pair_word};

use certify_facts::{Certificate, Fact, FactLine, Judge, Reason};
use dm_base::{OutOfMemory, Verdict};
use line_text::{push_bytes, push_decimal};
use std::alloc::Global;

/// The text of the certificate.
pub fn write_certificate(alloc: Global, certificate: &Certificate) -> Result<Vec<u8>, OutOfMemory>
    ensures { IfOk result (λ text. IsCertificate text.items certificate.now) }
{
    let mut text = Vec::new(alloc);
    push_bytes(&mut text, b"dyckmon-certificate 1\n")?;
    push_bytes(&mut text, which_text(certificate.judge()))?;
    push_verdict(alloc, &mut text, certificate.verdict())?;
    push_lines(alloc, &mut text, certificate.lines())?;
    push_bytes(&mut text, b"end\n")?;
    Ok(text)
}

// The line of a judge.
fn which_text(judge: Judge) -> &'static [u8]
    ensures { result.now ≡ which_line judge }
{
    match judge {
        Judge::Callgraph => b"which callgraph\n",
        Judge::Stack => b"which stack\n",
    }
}

// Adds the line of a claimed verdict.
fn push_verdict(alloc: Global, text: &mut Vec<u8>, verdict: Verdict) -> Result<(), OutOfMemory>
    requires { IsCounted verdict }
    ensures { OnOk result (text.new.items ≡ text.old.items ++ verdict_line verdict) }
{
    match verdict {
        Verdict::Accepted { events } => push_claim(alloc, text, b"accepted ", events),
        Verdict::Rejected { at } => push_claim(alloc, text, b"rejected ", at),
        Verdict::Bound { .. } => Ok(()),
    }
}

// Adds a word with its space, a number and the line feed.
fn push_claim(
    alloc: Global,
    text: &mut Vec<u8>,
    label: &[u8],
    number: u64,
) -> Result<(), OutOfMemory>
    ensures { OnOk result (text.new.items ≡ text.old.items ++ (label.now ++ number_word 10 number)) }
{
    push_bytes(text, label)?;
    push_decimal(alloc, text, number)?;
    push_bytes(text, b"\n")
}

// Adds the line of each fact.
fn push_lines(alloc: Global, text: &mut Vec<u8>, lines: &[FactLine]) -> Result<(), OutOfMemory>
    ensures text { OnOk result (text.new.items ≡ text.old.items ++ flat_map fact_line lines.now) }
    ensures small { OnOk result (All IsSmallLine lines.now) }
{
    for line in lines {
        push_line(alloc, text, line)?;
    }
    Ok(())
}

// Adds the line of a fact.
fn push_line(alloc: Global, text: &mut Vec<u8>, line: &FactLine) -> Result<(), OutOfMemory>
    ensures text { OnOk result (text.new.items ≡ text.old.items ++ fact_line line.now) }
    ensures small { OnOk result (IsSmallLine line.now) }
{
    push_fact(alloc, text, line.fact)?;
    push_reason(alloc, text, line.reason)
}

// Adds the fact and a space.
fn push_fact(alloc: Global, text: &mut Vec<u8>, fact: Fact) -> Result<(), OutOfMemory>
    ensures text { OnOk result (text.new.items ≡ text.old.items ++ fact_text fact) }
    ensures small { IsSmallFact fact }
{
    match fact {
        Fact::Callgraph { k, v } => push_labelled_pair(alloc, text, b"a ", k, v, b' '),
        Fact::At { k, i, f, v } => {
            push_labelled_pair(alloc, text, b"a ", k, i, b' ')?;
            push_pair(alloc, text, f, v, b' ')
        }
        Fact::Link { i, f, j, g, s } => {
            push_labelled_pair(alloc, text, b"l ", i, f, b' ')?;
            push_pair(alloc, text, j, g, b' ')?;
            push_number(alloc, text, s, b' ')
        }
    }
}

// Adds the reason and the line feed.
fn push_reason(alloc: Global, text: &mut Vec<u8>, reason: Reason) -> Result<(), OutOfMemory>
    ensures text { OnOk result (text.new.items ≡ text.old.items ++ reason_text reason) }
    ensures small { IsSmallReason reason }
{
    match reason {
        Reason::Start => push_bytes(text, b"start\n"),
        Reason::Silent(fact) => push_labelled(alloc, text, b"silent ", fact),
        Reason::Enter(fact, site) => push_labelled_pair(alloc, text, b"enter ", fact, site, b'\n'),
        Reason::Return(fact, back) => {
            push_labelled_pair(alloc, text, b"return ", fact, back, b'\n')
        }
        Reason::Event(fact) => push_labelled(alloc, text, b"event ", fact),
        Reason::Link(fact) => push_number(alloc, text, fact, b'\n'),
    }
}

// Adds a word with its space, a number and the line feed.
fn push_labelled(
    alloc: Global,
    text: &mut Vec<u8>,
    label: &[u8],
    number: u32,
) -> Result<(), OutOfMemory>
    ensures text { OnOk result (text.new.items ≡ text.old.items ++ (label.now ++ number_word 10 number)) }
    ensures small { IsSmall number }
{
    push_bytes(text, label)?;
    push_number(alloc, text, number, b'\n')
}

// Adds a word with its space, two numbers with a space between them, and the byte `end`.
fn push_labelled_pair(
    alloc: Global,
    text: &mut Vec<u8>,
    label: &[u8],
    first: u32,
    second: u32,
    end: u8,
) -> Result<(), OutOfMemory>
    ensures text { OnOk result (text.new.items ≡ text.old.items ++ (label.now ++ pair_word end (first, second))) }
    ensures small { AreSmall (first, second) }
{
    push_bytes(text, label)?;
    push_pair(alloc, text, first, second, end)
}

// Adds two numbers with a space between them, and the byte `end`.
fn push_pair(
    alloc: Global,
    text: &mut Vec<u8>,
    first: u32,
    second: u32,
    end: u8,
) -> Result<(), OutOfMemory>
    ensures text { OnOk result (text.new.items ≡ text.old.items ++ pair_word end (first, second)) }
    ensures small { AreSmall (first, second) }
{
    push_number(alloc, text, first, b' ')?;
    push_number(alloc, text, second, end)
}

// Adds the number and the byte `end`.
fn push_number(alloc: Global, text: &mut Vec<u8>, number: u32, end: u8) -> Result<(), OutOfMemory>
    ensures text { OnOk result (text.new.items ≡ text.old.items ++ number_word end number) }
    ensures small { IsSmall number }
{
    push_decimal(alloc, text, u64::from(number))?;
    text.push(end)?;
    Ok(())
}

ghost use Rattle.std.specs.Prelude.{◌≡◌, ◌++◌, IfOk, OnOk};
ghost use Rattle.generated_program.specs.Generator.{next_drawn, system_call_by, generated_source};
ghost use Rattle.generated_program.specs.Pieces.{front_text, function_text, main_text};

use dm_base::OutOfMemory;
use line_text::{push_bytes, push_decimal};
use std::alloc::Global;

// The next number that is drawn.
fn drawn_after(x: u32) -> u32
    ensures { result ≡ next_drawn x }
{
    ((x as u64 * 1_103_515_245 + 12_345) % 4_294_967_296) as u32
}

// The system call that the number chooses.
fn system_call(x: u32) -> &'static [u8]
    ensures { result.now ≡ system_call_by x }
{
    if x / 16 % 2 == 0 {
        return b"getpid";
    }
    b"getppid"
}

// Adds the prototypes and the first function.
fn push_front(text: &mut Vec<u8>) -> Result<(), OutOfMemory>
    ensures { OnOk result (text.new.items ≡ text.old.items ++ front_text) }
{
    push_bytes(
        text,
        b"int getpid ( void ) ;\nint getppid ( void ) ;\nint f0 ( void ) {\ngetpid ( ) ;\nreturn 0 ;\n}\n",
    )
}

// Adds the function with this number, which calls another one and makes a system call.
fn push_function(
    alloc: Global,
    text: &mut Vec<u8>,
    i: u32,
    callee: u32,
    call: &[u8],
) -> Result<(), OutOfMemory>
    ensures { OnOk result (text.new.items ≡ text.old.items ++ function_text i callee call.now) }
{
    push_bytes(text, b"int f")?;
    push_decimal(alloc, text, i as u64)?;
    push_bytes(text, b" ( void ) {\nf")?;
    push_decimal(alloc, text, callee as u64)?;
    push_bytes(text, b" ( ) ;\n")?;
    push_bytes(text, call)?;
    push_bytes(text, b" ( ) ;\nreturn 0 ;\n}\n")
}

// Adds the main function, which calls the last one.
fn push_main(alloc: Global, text: &mut Vec<u8>, last: u32) -> Result<(), OutOfMemory>
    ensures { OnOk result (text.new.items ≡ text.old.items ++ main_text last) }
{
    push_bytes(text, b"int main ( void ) {\nint i ;\nfor ( i = 0 ;\ni < ")?;
    push_decimal(alloc, text, last as u64 + 1)?;
    push_bytes(text, b" ;\ni ++ ) {\nf")?;
    push_decimal(alloc, text, last as u64)?;
    push_bytes(text, b" ( ) ;\n}\nreturn 0 ;\n}\n")
}

/// The printed text of the generated program: the functions f0 to f`last`, of which each but the first calls one before it and makes a system
/// call, and a main that calls the last one as many times as there are functions before it. Which ones are called is drawn from the number.
pub fn generated_text(alloc: Global, number: u32, last: u32) -> Result<Vec<u8>, OutOfMemory>
    ensures { IfOk result (λ text. text.items ≡ generated_source number last) }
{
    let mut text = Vec::new(alloc);
    push_front(&mut text)?;
    let mut x = number;
    for done in 0..last {
        x = drawn_after(x);
        let i = done + 1;
        push_function(alloc, &mut text, i, x / 65_536 % i, system_call(x))?;
    }
    push_main(alloc, &mut text, last)?;
    Ok(text)
}

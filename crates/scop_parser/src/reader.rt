//! The text of a kernel as its tree, or its first fault: of its tokens, then of the grammar, then of the kernel that
//! they spell. Of the tokens only their starts are kept, of the kernel's parts one at a time: the tokens are read again
//! by the grammar, and once more with each part judged.
ghost use Rattle.std.specs.Prelude.{◌≡◌, ◌≤◌, IfErr, IfOk, length};
ghost use Rattle.scop_expressions.specs.declared.reader.Stop.TheVariants as grammar_stop;
ghost use Rattle.scop_grammar.specs.Kernel.{Kernel as GrammarKernel, Spells};
ghost use Rattle.scop_grammar.specs.Turns.{IsStop};
ghost use Rattle.scop_lexer.specs.Tokens.{AreBetween, HasTokens, RefusesTokens, StopsWithin, token_at};
ghost use Rattle.scop_syntax.specs.Kernel.{IsKernel};
ghost use Rattle.scop_syntax.specs.View.{program_of};
ghost use Rattle.scop_units.specs.Names.{HasDistinctNames};
ghost use Rattle.scop_units.specs.View.{tokens_in, words_in};
ghost use Rattle.scop_units.specs.Words.{grammar_tokens};
ghost use Rattle.scop_pass.specs.declared.pass.Stop.TheVariants as pass_stop;
ghost use Rattle.scop_pass.specs.Passing.{Judges};
ghost use Rattle.scop_parser.specs.Reading.{IsGrammatical, RefusesText, TellsKernel};
ghost use Rattle.scop_parser.specs.Spelling.{IsFirstFault, SpellsProgram, token_kind};

use crate::laws::spelled_programs_are_kernels;
use crate::refusal::{Refusal, RefusalKind};
use scop_expressions::{Stop as GrammarStop, Token};
use scop_grammar::KernelReader;
use scop_lexer::{FaultKind, Stop as TokenStop, position, starts, token_at};
use scop_pass::{Pass, Stop as PassStop};
use scop_syntax::Kernel;
use scop_units::Words;
use std::alloc::Global;

/// Why there is no kernel.
#[derive(Clone, Copy)]
pub enum ReadKernelError {
    /// The first fault of the text.
    Refused(Refusal),
    NoMemory,
}

fn token_kind(kind: FaultKind) -> RefusalKind
    ensures { result ≡ token_kind kind }
{
    match kind {
        FaultKind::Character => RefusalKind::Character,
        FaultKind::Directive => RefusalKind::Directive,
        FaultKind::LiteralRange => RefusalKind::LiteralRange,
        FaultKind::UnendedComment => RefusalKind::UnendedComment,
    }
}

// A refusal at a byte.
fn refused(text: &[u8], kind: RefusalKind, at: usize) -> ReadKernelError
    requires place { at ≤ length text.now }
    requires fault { IsFirstFault text.now kind at }
    ensures { RefusesText text.now result }
{
    let place = position(text, at);
    ReadKernelError::Refused(Refusal {
        kind,
        line: place.line,
        column: place.column,
    })
}

fn token_stop(text: &[u8], stop: TokenStop) -> ReadKernelError
    requires place { StopsWithin (length text.now) stop }
    requires fault { RefusesTokens text.now stop }
    ensures { RefusesText text.now result }
{
    match stop {
        TokenStop::NoMemory => ReadKernelError::NoMemory,
        TokenStop::Refused(fault) => refused(text, token_kind(fault.kind), fault.place),
    }
}

fn grammar_stop(words: &Words, stop: GrammarStop) -> ReadKernelError
    requires tokens { HasTokens words.now.text.now (tokens_in words.now) }
    requires order { AreBetween 0 (tokens_in words.now) (length words.now.text.now) }
    requires fault { IsStop 64 256 (grammar_tokens (tokens_in words.now)) stop }
    ensures { RefusesText words.now.text.now result }
{
    match stop {
        GrammarStop::NoMemory => ReadKernelError::NoMemory,
        GrammarStop::Unfit(at) => refused(words.text, RefusalKind::Token, words.start(at)),
        GrammarStop::Unended(at) => refused(words.text, RefusalKind::Unended, words.start(at)),
        GrammarStop::Depth(at) => refused(words.text, RefusalKind::Depth, words.start(at)),
    }
}

fn judged_stop(words: &Words, stop: PassStop) -> ReadKernelError
    requires order { AreBetween 0 (tokens_in words.now) (length words.now.text.now) }
    requires fault { TellsKernel words.now.text.now (tokens_in words.now) stop }
    ensures { RefusesText words.now.text.now result }
{
    match stop {
        PassStop::NoMemory => ReadKernelError::NoMemory,
        PassStop::Refused(fault) => refused(words.text, fault.kind, words.start(fault.place)),
    }
}

// What the grammar sees of the token that begins at a start.
fn seen(words: &Words, start: u32) -> Token
    ensures { result ≡ (token_at words.now.text.now start).kind }
{
    token_at(words.text, start as usize).kind
}

// Whether the tokens spell a kernel: its parts are thrown away as they come.
fn recognized(alloc: Global, words: &Words) -> Result<(), GrammarStop>
    ensures kernel { IfOk result (λ _. IsGrammatical words.now) }
    ensures stop { IfErr result (IsStop 64 256 (grammar_tokens (tokens_in words.now))) }
{
    let mut reader = KernelReader::new(alloc);
    for start in words.starts {
        match reader.feed(alloc, seen(words, *start)) {
            Err(stop) => return Err(stop),
            Ok(()) => {}
        }
        let _parts = reader.take_parts(alloc);
    }
    match reader.finish() {
        Err(stop) => return Err(stop),
        Ok(_) => {}
    }
    Ok(())
}

// The grammar has no fault in the tokens of a kernel: only want of memory stops it there.
fn memory_stop(stop: GrammarStop) -> PassStop
    requires { stop ≡ grammar_stop.NoMemory }
    ensures { result ≡ pass_stop.NoMemory }
{
    match stop {
        GrammarStop::NoMemory => PassStop::NoMemory,
        GrammarStop::Unfit(_) | GrammarStop::Unended(_) | GrammarStop::Depth(_) => unreachable!(),
    }
}

// The tree of a kernel that the tokens spell, or its first fault: each part is judged and dropped as it comes.
fn judged(alloc: Global, words: &Words) -> Result<Kernel, PassStop>
    requires { IsGrammatical words.now }
    ensures { (k : GrammarKernel) → Spells 64 256 (grammar_tokens (tokens_in words.now)) k
        → Judges result (words_in words.now) k }
{
    let mut reader = KernelReader::new(alloc);
    let mut pass = Pass::new(alloc);
    for start in words.starts {
        match reader.feed(alloc, seen(words, *start)) {
            Err(stop) => return Err(memory_stop(stop)),
            Ok(()) => {}
        }
        let parts = reader.take_parts(alloc);
        match pass.take(alloc, words, &parts) {
            Err(stop) => return Err(stop),
            Ok(()) => {}
        }
    }
    Ok(pass.finish(alloc)?)
}

// The kernel that a text's tokens spell.
fn spelled(alloc: Global, words: &Words) -> Result<Kernel, ReadKernelError>
    requires tokens { HasTokens words.now.text.now (tokens_in words.now) }
    requires order { AreBetween 0 (tokens_in words.now) (length words.now.text.now) }
    ensures spells { IfOk result (λ kernel. SpellsProgram words.now.text.now (program_of kernel)) }
    ensures refused { IfErr result (RefusesText words.now.text.now) }
{
    match recognized(alloc, words) {
        Err(stop) => return Err(grammar_stop(words, stop)),
        Ok(()) => {}
    }
    match judged(alloc, words) {
        Err(stop) => Err(judged_stop(words, stop)),
        Ok(kernel) => Ok(kernel),
    }
}

/// The kernel that a text spells.
///
/// # Errors
/// The first fault of the text, with its line and column. `NoMemory` may come wherever memory is taken.
pub fn read_kernel(alloc: Global, text: &[u8]) -> Result<Kernel, ReadKernelError>
    ensures spells { IfOk result (λ kernel. SpellsProgram text.now (program_of kernel)) }
    ensures kernel { IfOk result (λ kernel. IsKernel (program_of kernel)) }
    ensures names { IfOk result (λ kernel. HasDistinctNames (program_of kernel)) }
    ensures refused { IfErr result (RefusesText text.now) }
{
    spelled_programs_are_kernels();
    let starts = match starts(alloc, text) {
        Err(stop) => return Err(token_stop(text, stop)),
        Ok(starts) => starts,
    };
    let words = Words {
        text,
        starts: &starts,
    };
    spelled(alloc, &words)
}

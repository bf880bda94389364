//! Laws of the definitions. Each function is its contract alone.
ghost use Rattle.std.specs.Prelude.{◌≡◌, ◌↔◌, ℕ, List as Listed, Result as Either, Ok, length};
ghost use Rattle.std.specs.List.{All};
ghost use Rattle.bl_base.specs.{Fits.Fits, declared.names.ValueType.ValueType, declared.start.Start.Start};
ghost use Rattle.bl_text.specs.{Items.TellItems, Lines.lines_of};
ghost use Rattle.bl_rob.specs.declared.directive.Directive.{Directive};
ghost use Rattle.bl_trace.specs.{declared.error.StartError.StartError, StartFiles.answer_of, StartAnswers.Tells};
ghost use Rattle.bl_trace.specs.Traces.{IsWritten, directive_of, trace_of, trace_text};

/// A start that a file asks for fits the function.
pub fn what_is_asked_for_fits()
    ensures { (params : Listed ValueType) (sizes bytes : Listed ℕ) (start : Start) → answer_of params sizes bytes ≡ Ok start → Fits params sizes start }
{}

/// A file is answered by what its lines tell: the start of its entries, where each line is one and no parameter lacks its argument; the number
/// of a line that is no entry, where each line before it is one; or how many arguments there are, where there are too few.
pub fn what_lines_tell()
    ensures { (params : Listed ValueType) (sizes bytes : Listed ℕ) (answer : Either Start StartError) →
        answer_of params sizes bytes ≡ answer ↔ Tells params sizes (lines_of bytes) answer }
{}

/// A trace file has the directives of its lines, where each line says one; else the number of the first one that says none.
pub fn what_traces_tell()
    ensures { (bytes : Listed ℕ) (answer : Either (Listed Directive) ℕ) → trace_of bytes ≡ answer ↔ TellItems directive_of (lines_of bytes) answer }
{}

/// What is written of directives is read back, and has as many lines.
pub fn what_is_written_is_read()
    ensures reads { (directives : Listed Directive) → All IsWritten directives → trace_of (trace_text directives) ≡ Ok directives }
    ensures lines { (directives : Listed Directive) → All IsWritten directives → length (lines_of (trace_text directives)) ≡ length directives }
{}
